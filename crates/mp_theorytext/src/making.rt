ghost use Rattle.std.specs.Prelude.{◌≡◌, ◌<◌, ◌+◌, [], false, length, map, IfOk, OnOk};
ghost use Rattle.mp_theory.specs.Tables.{law_count, name_taken};
ghost use Rattle.mp_patterntext.specs.Buildable.{AreFaultless, IsFaultless};
ghost use Rattle.mp_patterntext.specs.Values.{each_pattern_value, pattern_of};
ghost use Rattle.mp_schematext.specs.Buildable.{AreFaultlessPremises, IsFaultlessSchema};
ghost use Rattle.mp_schematext.specs.Statics.{rule_faults};
ghost use Rattle.mp_schematext.specs.Values.{schema_of};
ghost use Rattle.mp_theorytext.specs.Statics.{law_faults, law_name, rewrite_faults, theory_faults};
ghost use Rattle.mp_theorytext.specs.Values.{with_law, with_laws, with_rewrite, with_rule};

use crate::{RawLaw, RawRewrite};
use mp_logic::{List, NoMemory, Waiting};
use mp_patterntext::{RawPattern, build_pattern};
use mp_schema::{Pattern, Schema};
use mp_schematext::{RawRule, RawSchema, build_schema};
use mp_theory::{Theory, TheoryErr};
use std::alloc::Global;

/// The schema that is written, where no static rule is broken. What is written is let go.
fn take_schema(alloc: Global, raw: RawSchema) -> Result<Schema, NoMemory>
    requires faultless { IsFaultlessSchema raw }
    ensures { IfOk result (λ schema. schema ≡ schema_of raw) }
{
    build_schema(alloc, &raw)
}

/// The premises that are written, where no static rule is broken.
fn take_premises(alloc: Global, raws: List<RawSchema>) -> Result<List<Schema>, NoMemory>
    requires faultless { AreFaultlessPremises raws }
    ensures { IfOk result (λ premises. premises ≡ map schema_of raws) }
{
    let mut premises = List::with_capacity(alloc, raws.len())?;
    let mut waiting = Waiting::new(raws);
    while let Some(raw) = waiting.next() {
        let premise = take_schema(alloc, raw)?;
        if let Err((_, refused)) = premises.push(premise) {
            return Err(refused);
        }
    }
    Ok(premises)
}

/// Adds the rule that is written, where no static rule is broken.
fn add_written_rule(alloc: Global, theory: &mut Theory, raw: RawRule) -> Result<(), NoMemory>
    requires room { law_count theory.old < 4294967295 }
    requires faultless { rule_faults raw ≡ [] }
    requires free { name_taken theory.old raw.name.name ≡ false }
    ensures { OnOk result (theory.new ≡ with_rule theory.old raw) }
{
    let RawRule {
        name,
        premises,
        concl,
    } = raw;
    let premises = take_premises(alloc, premises)?;
    let concl = take_schema(alloc, concl)?;
    match theory.add_rule(alloc, name.name, premises, concl) {
        Ok(()) => Ok(()),
        Err(TheoryErr::NoMemory) => Err(NoMemory),
        Err(TheoryErr::Taken) => unreachable!(),
        Err(TheoryErr::Schema(_)) => unreachable!(),
    }
}

/// The pattern that is written, where no name is bound and no static rule is broken. What is written is let go.
fn take_pattern(alloc: Global, raw: RawPattern) -> Result<Pattern, NoMemory>
    requires faultless { IsFaultless raw [] }
    ensures { IfOk result (λ pattern. pattern ≡ pattern_of raw []) }
{
    let mut env = Vec::new(alloc);
    build_pattern(alloc, &raw, &mut env)
}

/// The conditions that are written, where no static rule is broken.
fn take_conditions(alloc: Global, raws: List<RawPattern>) -> Result<List<Pattern>, NoMemory>
    requires faultless { AreFaultless raws [] }
    ensures { IfOk result (λ conds. conds ≡ each_pattern_value (map pattern_of raws) []) }
{
    let mut conds = List::with_capacity(alloc, raws.len())?;
    let mut waiting = Waiting::new(raws);
    while let Some(raw) = waiting.next() {
        let cond = take_pattern(alloc, raw)?;
        if let Err((_, refused)) = conds.push(cond) {
            return Err(refused);
        }
    }
    Ok(conds)
}

/// Adds the rewrite that is written, where no static rule is broken.
fn add_written_rewrite(alloc: Global, theory: &mut Theory, raw: RawRewrite) -> Result<(), NoMemory>
    requires room { law_count theory.old < 4294967295 }
    requires faultless { rewrite_faults raw ≡ [] }
    requires free { name_taken theory.old raw.name.name ≡ false }
    ensures { OnOk result (theory.new ≡ with_rewrite theory.old raw) }
{
    let RawRewrite {
        name,
        conds,
        redex,
        contractum,
    } = raw;
    let conds = take_conditions(alloc, conds)?;
    let redex = take_pattern(alloc, redex)?;
    let contractum = take_pattern(alloc, contractum)?;
    match theory.add_rewrite(alloc, name.name, conds, redex, contractum) {
        Ok(()) => Ok(()),
        Err(TheoryErr::NoMemory) => Err(NoMemory),
        Err(TheoryErr::Taken) => unreachable!(),
        Err(TheoryErr::Schema(_)) => unreachable!(),
    }
}

/// Adds the law that is written, where no static rule is broken.
fn take_written(alloc: Global, theory: &mut Theory, raw: RawLaw) -> Result<(), NoMemory>
    requires room { law_count theory.old < 4294967295 }
    requires faultless { law_faults raw ≡ [] }
    requires free { name_taken theory.old (law_name raw).name ≡ false }
    ensures { OnOk result (theory.new ≡ with_law theory.old raw) }
{
    match raw {
        RawLaw::Rule(rule) => add_written_rule(alloc, theory, rule),
        RawLaw::Rewrite(rewrite) => add_written_rewrite(alloc, theory, rewrite),
    }
}

/// The theory with the laws that are written, in their order, where no static rule is broken. What is written is let go
/// once it is built, so that a large theory isn't held twice.
#[tactic(auto, using(crate::proofs::Adding::first_added, crate::proofs::Adding::counted))]
pub(crate) fn build_theory(
    alloc: Global,
    theory: Theory,
    raws: List<RawLaw>,
) -> Result<Theory, NoMemory>
    requires few { law_count theory + length raws < 4294967295 }
    requires faultless { theory_faults theory raws ≡ [] }
    ensures { IfOk result (λ built. built ≡ with_laws theory raws) }
{
    let mut theory = theory;
    let mut waiting = Waiting::new(raws);
    while let Some(raw) = waiting.next() {
        take_written(alloc, &mut theory, raw)?;
    }
    Ok(theory)
}
