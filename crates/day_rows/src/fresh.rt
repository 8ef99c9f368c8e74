// A fresh log with its figures.
ghost use Rattle.std.specs.Prelude.{◌≡◌};
ghost use Rattle.refusal.specs.Outcome.{outcome};
ghost use Rattle.day_rows.specs.LogAndRows.{log_and_rows};
ghost use Rattle.day_rows.specs.Fresh.{fresh_with};

use energy_log::FreshError;
use log_header::Header;

// Both go to the front of what is lent, whose rest stays as it was; a refusal leaves all of it so.
pub fn fresh_log(h: Header, out: &mut [u8], figures: &mut [u32]) -> Result<usize, FreshError>
    ensures { outcome result (log_and_rows out.new figures.new) ≡ fresh_with h out.old figures.old }
{
    if figures.len() < crate::rows::figures_of(h) {
        // That the header is none is said first, also of too few figures.
        if !log_header::is_header(h) {
            return Err(FreshError::OutOfRange);
        }
        return Err(FreshError::TooShort);
    }
    let length = energy_log::fresh_log(h, out)?;
    crate::rows::fill_fresh(h, figures);
    Ok(length)
}
