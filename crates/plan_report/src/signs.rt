// A sign for each station's outputs and for its inputs.
ghost use Rattle.std.specs.Prelude.{◌≡◌, Some, Option};
ghost use Rattle.plan.specs.declared.owners.Owner.{Owner};
ghost use Rattle.plan_report.specs.Signs.{sign, Drawn};

use plan::{Direction, Owner};

// By position: letters, and then what is left of the signs that are easy to tell apart.
const OUTPUT_SIGNS: &[u8; 32] = b"ABCDEFGHIJKLMNOPQRSTUVWXYZ123456";

const INPUT_SIGNS: &[u8; 32] = b"abcdefghijklmnopqrstuvwxyz!@$%&*";

pub const FREE: char = '.';

fn sign_in(owner: Owner) -> char
    ensures { result ≡ sign (Some owner) }
{
    let signs = match owner.direction {
        Direction::Output => OUTPUT_SIGNS,
        Direction::Input => INPUT_SIGNS,
    };
    signs
        .get(usize::from(owner.position.0))
        .map_or('?', |sign| char::from(*sign))
}

// The sign of a bit with that owner. No two owners that a plan can have are drawn alike.
pub fn sign_of(owner: Option<Owner>) -> char
    ensures value { result ≡ sign owner }
    ensures apart { (other : Option Owner) → Drawn owner → Drawn other → sign other ≡ result → other ≡ owner }
{
    match owner {
        None => FREE,
        Some(owner) => sign_in(owner),
    }
}
