//! Giving passes back to their maker, whatever holds them.
ghost use Rattle.std.specs.Prelude.{◌≡◌, ◌+◌, ◌++◌, ⊤, map, length, All};
ghost use Rattle.ist_core.specs.Logs.{GoesOn};
ghost use Rattle.ist_tree.specs.Faces.{PassFace, calls_in};

use crate::passes::{Maker, Pass};
use crate::trees::Tree;

/// How a pass is taken out of what holds it, as a worker does.
pub trait Holds<H> {
    // the pass that is held
    ghost pass: { H → PassFace };
    // what is known of the holder once its pass is taken out
    ghost known: { H → Type 0 } = { λ _. ⊤ };

    /// Takes the pass out.
    fn into_pass(holder: H) -> Pass
        ensures pass { result ≡ pass holder }
        ensures known { known holder };
}

/// Gives the pass of each holder back to its maker, the last one first.
pub fn take_all_back<H: Drop, F: Holds<H>>(tree: &Tree, maker: &mut Maker, holders: Vec<H>)
    requires same_tree { maker.old.tree ≡ tree.now }
    requires trees { All (λ h. (F.pass h).tree ≡ tree.now) holders.items }
    ensures same_tree { maker.new.tree ≡ maker.old.tree }
    ensures made { maker.new.made ≡ maker.old.made }
    ensures taken { maker.new.taken
        ≡ map (λ h. calls_in (F.pass h)) holders.items ++ maker.old.taken }
    ensures count { length maker.new.taken
        ≡ length holders.items + length maker.old.taken }
    ensures maker_seen { GoesOn maker.old.seen maker.new.seen }
    ensures seen { All (λ h. GoesOn (F.pass h).seen maker.new.seen) holders.items }
    ensures known { All F.known holders.items }
{
    let mut holders = holders;
    let Some(holder) = holders.pop() else {
        return;
    };
    tree.take_back(maker, F::into_pass(holder));
    take_all_back::<H, F>(tree, maker, holders);
}
