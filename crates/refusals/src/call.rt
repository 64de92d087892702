// The first refusal that applies to a call on a pane: set-up's checks again, then 1 and 12.
ghost use Rattle.std.specs.Prelude.{◌≡◌};
ghost use Rattle.model.specs.Numbers.{refused_by};
ghost use Rattle.model.specs.Calls.{call_checks};

use crate::pane::pane_bad;
use crate::table::check_setup;
use model::{Console, Frame, Refusal};

// The first refusal that applies to a call on the pane with a number; by the record and the lengths of the two
// buffers.
#[tactic(auto, using(model::proofs::NumberLaws::refusal_some), unfolding(model::specs::Calls::call_checks))]
pub fn check_call(screen: usize, stores: usize, c: Console, number: u32) -> Result<(), Refusal>
    ensures { refused_by result ≡ call_checks c screen stores number }
{
    check_setup(screen, stores, c)?;
    if c.count <= number {
        return Err(Refusal::Pane);
    }
    let k = number as usize;
    let row = c.rows[k];
    let p = c.panes[k];
    let geometry = c.geometry;
    let f = Frame { geometry, row };
    if pane_bad(f, p) {
        return Err(Refusal::Record);
    }
    Ok(())
}
