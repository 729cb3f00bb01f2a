//! Samples as codes of four bytes.
ghost use Rattle.std.specs.Prelude.{◌≡◌, IfSome};
ghost use Rattle.edr_samples.specs.Codes.{sample_of};

// The code of null.
pub(crate) const NULL: i32 = -2147483648;

// The code of a sample, where it has one.
#[inline(always)]
pub(crate) fn code_of(sample: Option<i64>) -> Option<i32>
    ensures { IfSome result (λ code. sample_of code ≡ sample) }
{
    match sample {
        Some(number) => if -2147483648 < number && number <= 2147483647 {
            Some(number as i32)
        } else {
            None
        },
        None => Some(NULL),
    }
}

// The sample of a code.
#[inline(always)]
pub(crate) fn sample_of(code: i32) -> Option<i64>
    ensures { result ≡ sample_of code }
{
    if code == NULL {
        None
    } else {
        Some(code as i64)
    }
}
