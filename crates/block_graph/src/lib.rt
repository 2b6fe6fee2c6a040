// The block graph of a core, as definitions and lemmas; it has no code of its own. `lowered` of `specs/Lowering.antt`
// is the module that a core is lowered to: a function of the core, and of how expressions are brought into operands.
// The layer above makes that very module, and takes from `laws` what is proved of it.
//
// It stands on `core_ir`, `qir_module` and `cell_operands`, on what it means that code computes expressions
// (`expr_lower`), and on the phis of joins (`phi_place`).
#![tactic(auto)]

pub mod laws;
