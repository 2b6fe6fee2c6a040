//! The rules in order, up to the first that is broken.

ghost use Rattle.std.specs.Prelude.{◌≡◌, IfOk};
ghost use Rattle.qir_module.specs.Broken.{broken, first_rule};
ghost use Rattle.profile_check.specs.Names.{HasPlaces};
ghost use Rattle.profile_check.specs.Ways.{AreWays};
ghost use Rattle.profile_check.specs.Rules.{breach_of, rules_from_qubits, rules_from_carried, rules_from_phis, rules_from_labels};

use crate::head::{
    calls, constants, declarations, distinct_qubits, entry, flags, initialize, label_texts,
    qubit_ids, result_ids,
};
use crate::lost::{carried_registers, carried_results};
use crate::mentions::gather;
use crate::names::{Places, labels, places, targets};
use crate::phis::phis;
use crate::place::Place;
use crate::records::records;
use crate::registers::{assigned_once, limits, operand_types};
use crate::rule::CheckRule;
use crate::ways::{Ways, earlier_ways, ways};
use qir_module::Module;
use qq_base::NoMemory;
use std::alloc::Global;

/// A rule that is broken, and its first place.
#[derive(Clone, Copy)]
pub(crate) struct Found {
    pub rule: CheckRule,
    pub at: Place,
}

/// The rules from that on the qubits of a call on.
#[tactic(auto, using(crate::proofs::RuleLemmas::broken_here, crate::proofs::RuleLemmas::kept_here))]
fn from_qubits(module: &Module, ways: &Ways) -> Option<Found>
    requires { AreWays ways.now.items «module».now.blocks }
    ensures { breach_of result ≡ first_rule «module».now rules_from_qubits }
{
    if let Some(at) = distinct_qubits(module) {
        let rule = CheckRule::DistinctQubits;
        return Some(Found { rule, at });
    }
    if let Some(at) = records(module) {
        let rule = CheckRule::Records;
        return Some(Found { rule, at });
    }
    if let Some(at) = label_texts(module) {
        let rule = CheckRule::LabelTexts;
        return Some(Found { rule, at });
    }
    if let Some(at) = earlier_ways(module, ways) {
        let rule = CheckRule::EarlierWay;
        return Some(Found { rule, at });
    }
    let at = limits(module)?;
    let rule = CheckRule::Limits;
    Some(Found { rule, at })
}

/// The rules from that on carried registers on.
#[tactic(auto, using(crate::proofs::RuleLemmas::broken_here, crate::proofs::RuleLemmas::kept_here))]
fn from_carried(
    alloc: Global,
    module: &Module,
    places: &Places,
    ways: &Ways,
) -> Result<Option<Found>, NoMemory>
    requires places { HasPlaces places.now «module».now.blocks }
    requires ways { AreWays ways.now.items «module».now.blocks }
    ensures { IfOk result (λ found. breach_of found ≡ first_rule «module».now rules_from_carried) }
{
    let mentions = gather(alloc, &module.blocks.items)?;
    if let Some(at) = carried_registers(alloc, module, places, ways, &mentions)? {
        let rule = CheckRule::CarriedRegister;
        return Ok(Some(Found { rule, at }));
    }
    if let Some(at) = carried_results(alloc, module, places, ways, &mentions)? {
        let rule = CheckRule::CarriedResult;
        return Ok(Some(Found { rule, at }));
    }
    Ok(from_qubits(module, ways))
}

/// The rules from that on phis on.
#[tactic(auto, using(crate::proofs::RuleLemmas::broken_here, crate::proofs::RuleLemmas::kept_here))]
fn from_phis(
    alloc: Global,
    module: &Module,
    places: &Places,
    ways: &Ways,
) -> Result<Option<Found>, NoMemory>
    requires places { HasPlaces places.now «module».now.blocks }
    requires ways { AreWays ways.now.items «module».now.blocks }
    ensures { IfOk result (λ found. breach_of found ≡ first_rule «module».now rules_from_phis) }
{
    if let Some(at) = phis(alloc, module, ways)? {
        let rule = CheckRule::Phis;
        return Ok(Some(Found { rule, at }));
    }
    if let Some(at) = operand_types(alloc, module)? {
        let rule = CheckRule::OperandTypes;
        return Ok(Some(Found { rule, at }));
    }
    if let Some(at) = constants(module) {
        let rule = CheckRule::Constants;
        return Ok(Some(Found { rule, at }));
    }
    from_carried(alloc, module, places, ways)
}

/// The rules from that on the names of blocks on.
#[tactic(auto, using(crate::proofs::RuleLemmas::broken_here, crate::proofs::RuleLemmas::kept_here))]
fn from_labels(alloc: Global, module: &Module) -> Result<Option<Found>, NoMemory>
    ensures { IfOk result (λ found. breach_of found ≡ first_rule «module».now rules_from_labels) }
{
    let places = places(alloc, &module.blocks.items)?;
    if let Some(at) = labels(module, &places) {
        let rule = CheckRule::Labels;
        return Ok(Some(Found { rule, at }));
    }
    if let Some(at) = assigned_once(alloc, module)? {
        let rule = CheckRule::AssignedOnce;
        return Ok(Some(Found { rule, at }));
    }
    if let Some(at) = targets(module, &places) {
        let rule = CheckRule::Targets;
        return Ok(Some(Found { rule, at }));
    }
    let ways = ways(alloc, &places, &module.blocks.items)?;
    from_phis(alloc, module, &places, &ways)
}

/// The first rule that is broken, at its first place.
#[tactic(auto, using(crate::proofs::RuleLemmas::broken_here, crate::proofs::RuleLemmas::kept_here))]
pub(crate) fn first_broken_rule(alloc: Global, module: &Module) -> Result<Option<Found>, NoMemory>
    ensures { IfOk result (λ found. breach_of found ≡ broken «module».now) }
{
    if let Some(at) = flags(module) {
        let rule = CheckRule::Flags;
        return Ok(Some(Found { rule, at }));
    }
    if let Some(at) = entry(module) {
        let rule = CheckRule::Entry;
        return Ok(Some(Found { rule, at }));
    }
    if let Some(at) = qubit_ids(module) {
        let rule = CheckRule::QubitIds;
        return Ok(Some(Found { rule, at }));
    }
    if let Some(at) = result_ids(module) {
        let rule = CheckRule::ResultIds;
        return Ok(Some(Found { rule, at }));
    }
    if let Some(at) = declarations(module) {
        let rule = CheckRule::Declarations;
        return Ok(Some(Found { rule, at }));
    }
    if let Some(at) = calls(module) {
        let rule = CheckRule::Calls;
        return Ok(Some(Found { rule, at }));
    }
    if let Some(at) = initialize(module) {
        let rule = CheckRule::Initialize;
        return Ok(Some(Found { rule, at }));
    }
    from_labels(alloc, module)
}
