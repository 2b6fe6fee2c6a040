//! What the expansion of a call asks of the place where the call stands.
ghost use Rattle.std.specs.Prelude.{◌≡◌, ◌<◌, List, length, slice_get, Some};
ghost use Rattle.gate_flatten.specs.Outer.{OuterMeaning, outer_of};

use const_eval::{Const, GateEnv};

/// An argument of the outermost call.
#[derive(Debug, Drop)]
pub enum OuterArg<'a> {
    /// A constant.
    Fixed(&'a Const),
    /// A turn.
    Running,
}

/// What calls of gates ask for. Its meaning is, beside the maps of `GateEnv`, the list of the arguments of the outermost call.
pub trait CallEnv: GateEnv {
    ghost outers: { Self → List OuterMeaning };

    /// The argument of the outermost call with this place, from 0.
    fn outer(&self, k: u32) -> OuterArg<'_>
        requires { k < length (outers self.now) }
        ensures { slice_get (outers self.now) k ≡ Some (outer_of result) };
}
