//! The fields of a record.
ghost use Rattle.std.specs.Prelude.{◌≡◌, IfSome};
ghost use Rattle.std.specs.Fmt.{signed_decimal};
ghost use Rattle.edr_axes.specs.Instants.{IsTime};
ghost use Rattle.edr_csv.specs.Rows.{number_field, text_field, time_field};

use edr_axes::write_instant;
use edr_base::Text;
use itoa::Buffer;

/// A number.
pub fn number(buffer: &mut Buffer, number: i64) -> &[u8]
    ensures { result.now ≡ signed_decimal number }
{
    buffer.format(number).as_bytes()
}

/// A number, or nothing where there is none.
pub fn number_field(buffer: &mut Buffer, given: Option<i64>) -> &[u8]
    ensures { result.now ≡ number_field given }
{
    match given {
        Some(given) => number(buffer, given),
        None => &[],
    }
}

/// A time, or nothing where there is none. The buffer is what it is written into.
pub fn time_field(buffer: &mut [u8; 20], time: Option<i64>) -> &[u8]
    requires { IfSome time IsTime }
    ensures { result.now ≡ time_field time }
{
    let Some(time) = time else {
        return &[];
    };
    *buffer = write_instant(time);
    buffer
}

/// A text, or nothing where there is none.
pub fn text_field(text: &Option<Text>) -> &[u8]
    ensures { result.now ≡ text_field text.now }
{
    match text {
        Some(text) => text.bytes(),
        None => &[],
    }
}
