// Numbers, and those of equations.
ghost use Rattle.std.specs.Prelude.{◌≤◌, ◌<◌, decimal};
ghost use Rattle.av_print.specs.Systems.{number_text};
ghost use Rattle.av_check.specs.Reading.{Reads};

use crate::reading::pieces::after;
use av_text::number_in;

/// The number from low to high whose numeral the token is.
pub fn number_between(token: &[u8], low: u32, high: u32) -> Option<u32>
    ensures { Reads (λ n. (low ≤ n) × (n ≤ high)) decimal token.now result }
{
    match number_in(token, low as u128, high as u128) {
        Ok(number) => Some(number as u32),
        Err(_) => None,
    }
}

/// The number of one of so many equations that the token names, as `E3`.
pub fn equation_number(token: &[u8], count: u32) -> Option<u32>
    requires { 0 < count }
    ensures { Reads (λ u. u < count) number_text token.now result }
{
    match after(token, b"E") {
        Some(numeral) => number_between(numeral, 0, count - 1),
        None => None,
    }
}
