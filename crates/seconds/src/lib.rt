// Microseconds as seconds with six digits, and seconds as they are given.
// Every public function is total.
#![tactic(auto)]

ghost use Rattle.std.specs.Prelude.{◌≡◌, IfSome};
ghost use Rattle.digits.specs.Decimals.{Within};
ghost use Rattle.phrases.specs.Puts.{Puts};
ghost use Rattle.seconds.specs.Seconds.{sign_text, micros_text, seconds_text, fraction_given, micros_given, move_given, Short};

// So many microseconds on or back.
#[derive(Clone, Copy, Debug, PartialEq, Eq)]
pub enum Move {
    On(u64),
    Back(u64),
}

// ---- out

fn put_sign(out: &mut [u8], at: usize, z: i64) -> usize
    ensures { Puts out.old at (sign_text z) result out.new }
{
    if z < 0 {
        phrases::put(out, at, b"-")
    } else {
        phrases::put(out, at, b"")
    }
}

fn put_micros(out: &mut [u8], at: usize, n: u64) -> usize
    ensures { Puts out.old at (micros_text n) result out.new }
{
    let nine = digits::digits((n % 1000000) as u32);
    let a = phrases::put_unsigned(out, at, n / 1000000);
    let b = phrases::put(out, a, b".");
    phrases::put(out, b, &nine[3..])
}

// Puts microseconds as seconds with six digits.
pub fn put_seconds(out: &mut [u8], at: usize, z: i64) -> usize
    ensures { Puts out.old at (seconds_text z) result out.new }
{
    let a = put_sign(out, at, z);
    put_micros(out, a, z.unsigned_abs())
}

// ---- in

// The digits of a fraction over six zeros.
fn fraction(given: &[u8]) -> Option<u64>
    ensures { result ≡ fraction_given given.now }
{
    if 6 < given.len() {
        return None;
    }
    let mut six = *b"000000";
    six[..given.len()].copy_from_slice(given);
    digits::decimal(&six, 999999)
}

// Seconds with their fraction, as microseconds.
fn micros(given: &[u8]) -> Option<u64>
    ensures { (result ≡ micros_given given.now) × Within 999999999999999999 result }
{
    let end = lines::until(given, 0, b'.');
    let from = lines::past(given, 0, b'.');
    let whole = digits::decimal(&given[..end], 999999999999)?;
    let part = fraction(&given[from..])?;
    Some(1000000 * whole + part)
}

// Seconds as they are given, on or back, if they are a number of seconds.
pub fn move_given(given: &[u8]) -> Option<Move>
    ensures { (result ≡ move_given given.now) × IfSome result Short }
{
    match given.first()? {
        b'-' => micros(&given[1..]).map(Move::Back),
        b'+' => micros(&given[1..]).map(Move::On),
        _ => micros(given).map(Move::On),
    }
}
