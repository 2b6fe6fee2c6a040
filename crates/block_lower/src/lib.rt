// The lowering of a core to a module of the Adaptive Profile: its statements become a graph of blocks with phis.
//
// It makes the very module that `block_graph` defines (`lowered`), and takes from that crate's laws what is true of it. It
// stands on `core_ir`, on the code of expressions (`expr_lower`) and on the phis of joins (`phi_place`). The layer above
// uses the contract of `lower`.
//
// The statements are lowered by a recursion that goes as deep as bodies are nested in the core: each level of it is a
// choice, a block or a loop, so a core that fits nests at most 16,001 of them.
#![tactic(auto)]

mod calls;
mod exits;
mod graph;
mod held;
mod joins;
mod kept;
mod mark;
mod marks;
mod settle;
mod statements;
mod work;

pub use exits::reaches_end;
pub use statements::lower;
