//! The widths that codes are kept in.
ghost use Rattle.std.specs.Prelude.{◌≡◌, ◌≤◌, ℤ, Option};
ghost use Rattle.edr_chunk.specs.Codes.{IsFloor, HasCode, code_sample, triple_code, triple_sample, whole_sample};
ghost use Rattle.edr_base.specs.Limits.{HasSample};

/// A number of some width as the code of a sample.
pub trait Width: Copy + Drop {
    // the sample of a code
    ghost sample: { ℤ → Self → Option ℤ };

    // the samples that have a code
    ghost fits: { ℤ → Option ℤ → Type 0 };

    /// The code of a sample. It takes no memory.
    fn of(value: Option<i64>, floor: i64) -> Self
        requires floor { IsFloor floor }
        requires value { HasSample value }
        requires fits { fits floor value }
        ensures { sample floor result ≡ value };

    /// The sample of a code. It takes no memory.
    fn sample(self, floor: i64) -> Option<i64>
        requires { IsFloor floor }
        ensures { result ≡ sample floor self };
}

impl Width for u8 {
    ghost sample = { code_sample };

    ghost fits = { HasCode 255 };

    fn of(value: Option<i64>, floor: i64) -> u8 {
        match value {
            Some(value) => (value - floor) as u8,
            None => 0,
        }
    }

    fn sample(self, floor: i64) -> Option<i64> {
        if self == 0 {
            return None;
        }
        Some(floor + self as i64)
    }
}

impl Width for u16 {
    ghost sample = { code_sample };

    ghost fits = { HasCode 65_535 };

    fn of(value: Option<i64>, floor: i64) -> u16 {
        match value {
            Some(value) => (value - floor) as u16,
            None => 0,
        }
    }

    fn sample(self, floor: i64) -> Option<i64> {
        if self == 0 {
            return None;
        }
        Some(floor + self as i64)
    }
}

impl Width for [u8; 3] {
    ghost sample = { triple_sample };

    ghost fits = { HasCode 16_777_215 };

    fn of(value: Option<i64>, floor: i64) -> [u8; 3] {
        match value {
            Some(value) => triple_of((value - floor) as u32),
            None => [0, 0, 0],
        }
    }

    fn sample(self, floor: i64) -> Option<i64> {
        let code = code_in(self);
        if code == 0 {
            return None;
        }
        Some(floor + code as i64)
    }
}

impl Width for u32 {
    ghost sample = { code_sample };

    ghost fits = { HasCode 4_294_967_295 };

    fn of(value: Option<i64>, floor: i64) -> u32 {
        match value {
            Some(value) => (value - floor) as u32,
            None => 0,
        }
    }

    fn sample(self, floor: i64) -> Option<i64> {
        if self == 0 {
            return None;
        }
        Some(floor + self as i64)
    }
}

impl Width for i64 {
    ghost sample = { whole_sample };

    ghost fits = { λ floor value. HasSample value };

    fn of(value: Option<i64>, _floor: i64) -> i64 {
        value.unwrap_or(i64::MIN)
    }

    fn sample(self, _floor: i64) -> Option<i64> {
        if self == i64::MIN {
            return None;
        }
        Some(self)
    }
}

// The code in three bytes.
fn code_in(bytes: [u8; 3]) -> u32
    ensures { result ≡ triple_code bytes }
{
    let [low, middle, high] = bytes;
    low as u32 + 256 * middle as u32 + 65_536 * high as u32
}

// A code in three bytes, the lowest first.
fn triple_of(code: u32) -> [u8; 3]
    requires { code ≤ 16_777_215 }
    ensures { triple_code result ≡ code }
{
    [
        (code % 256) as u8,
        (code / 256 % 256) as u8,
        (code / 65_536) as u8,
    ]
}
