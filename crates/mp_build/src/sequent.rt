ghost use Rattle.std.specs.Prelude.{◌≡◌, ◌+◌, ◌++◌, ◌∷◌, [], ◌<◌, ◌≤◌, ◌^◌, map, length, IsTrue, IfOk, OnOk, if◌then◌else◌};
ghost use Rattle.mp_term.specs.declared.term.Term.{Var};
ghost use Rattle.mp_schema.specs.Conditions.{is_placed};
ghost use Rattle.mp_schema.specs.Sequents.{seq, schema_fits, telescope, hyps_of, behind, first_spot};
ghost use Rattle.mp_schema.specs.Values.{instance_of};
ghost use Rattle.mp_build.specs.Built.{IsBuilt};
ghost use Rattle.mp_build.specs.Rooms.{schema_room};
ghost use Rattle.mp_term.specs.Subst.{occurs_in};
ghost use Rattle.mp_build.specs.Sites.{spot_of, start_of, with_start, made_at, the_blank, used_terms, AreArgsSet, IsBuildable, AreBuildableArgs, IsRowBuildable, IsItemBuildable, AreItemsBuildable};

use crate::BuildErr;
use crate::build::{are_variables, blank, build_within, put_in, variables_before};
use crate::limits::check_limits;
use crate::site::{Site, Span, Start};
use crate::values::kept_count;
use crate::weights::occurs;
use mp_logic::{List, NoMemory, Sym};
use mp_schema::{Inst, Item, Pattern, Schema, context_value};
use mp_term::{Sequent, Term, copy};
use std::alloc::Global;

/// The sequent that a premise makes of the values of a rule step. The ambient scope must be 0.
///
/// Each variable of the premise must be a named hypothesis or a binder before it, each context of a list an item
/// before it, and no context an item twice. Each value must be in the scope that its uses ask; a second-order
/// variable without a value counts as variable 0, and a context without one as empty. No scope on the way may reach
/// `2^31`.
///
/// TooLarge exactly where the sequent has more than 200 hypotheses, a term deeper than 200, or more than 20,000
/// nodes. This is found before anything is built, and the search for it ends at the limits. NoMemory where memory
/// ran out.
pub fn build_sequent(alloc: Global, premise: &Schema, inst: &Inst) -> Result<Sequent, BuildErr>
    requires rule { inst.now.ambient ≡ 0 }
    requires placed { IsTrue (is_placed premise.now) }
    requires fitting { IsTrue (schema_fits (instance_of inst.now) premise.now) }
    requires narrow { schema_room (instance_of inst.now) premise.now < 2 ^ 31 }
    ensures { IsBuilt (seq (instance_of inst.now) premise.now) result }
{
    check_limits(alloc, premise, inst)?;
    let made = make_sequent(alloc, premise, inst)?;
    Ok(made)
}

// The same without a look at the limits.
fn make_sequent(alloc: Global, schema: &Schema, inst: &Inst) -> Result<Sequent, NoMemory>
    requires { AreItemsBuildable (instance_of inst.now) first_spot schema.now.items schema.now.concl }
    ensures { IfOk result (λ made. made ≡ seq (instance_of inst.now) schema.now) }
{
    let mut hyps = List::new(alloc);
    let mut site = Site {
        places: Vec::new(alloc),
        starts: Vec::new(alloc),
        next: 0,
    };
    for item in schema.items.as_slice() {
        push_item(alloc, item, inst, &mut site, &mut hyps)?;
    }
    let span = Span {
        base: site.next,
        scope: site.next,
    };
    let concl = build_within(alloc, &schema.concl, inst, &site, span)?;
    Ok(Sequent { hyps, concl })
}

// Adds the hypotheses that the item makes, and moves the place behind it.
fn push_item(
    alloc: Global,
    item: &Item,
    inst: &Inst,
    site: &mut Site,
    hyps: &mut List<Term>,
) -> Result<(), NoMemory>
    requires { IsItemBuildable (instance_of inst.now) (spot_of site.old) item.now }
    ensures hyps { OnOk result (hyps.new ≡ hyps.old ++ hyps_of (instance_of inst.now) item.now (spot_of site.old)) }
    ensures site { OnOk result (spot_of site.new ≡ behind (instance_of inst.now) item.now (spot_of site.old)) }
{
    match item {
        Item::Hyp(p) => {
            let span = Span {
                base: site.next,
                scope: site.next,
            };
            let hyp = build_within(alloc, p, inst, site, span)?;
            if let Err((_, refused)) = hyps.push(hyp) {
                return Err(refused);
            }
            pass_hypothesis(site)
        }
        Item::Ctx { name, ctxs, args } => {
            let (ctxs, args) = (ctxs.as_slice(), args.as_slice());
            if let Some(context) = context_value(&inst.ctxs, *name) {
                push_row(alloc, context.hyps.as_slice(), ctxs, args, inst, site, hyps)?;
            }
            pass_context(site, *name, kept_count(inst, *name) as u32)
        }
    }
}

// Moves the place behind a named hypothesis.
fn pass_hypothesis(site: &mut Site) -> Result<(), NoMemory>
    requires { site.old.next + 1 < 2 ^ 32 }
    ensures env { OnOk result (site.new.places.items ≡ site.old.places.items ++ site.old.next ∷ []) }
    ensures pos { OnOk result (site.new.starts ≡ site.old.starts) }
    ensures next { OnOk result (site.new.next ≡ site.old.next + 1) }
{
    let level = site.next;
    if site.places.push(level).is_err() {
        return Err(NoMemory);
    }
    site.next = level + 1;
    Ok(())
}

// Moves the place behind a context with so many hypotheses.
fn pass_context(site: &mut Site, name: Sym, count: u32) -> Result<(), NoMemory>
    requires { site.old.next + count < 2 ^ 32 }
    ensures env { OnOk result (site.new.places ≡ site.old.places) }
    ensures pos { OnOk result (start_of site.new.starts.items ≡ with_start (start_of site.old.starts.items) (record { name = name; level = site.old.next })) }
    ensures next { OnOk result (site.new.next ≡ site.old.next + count) }
{
    let level = site.next;
    if site.starts.push(Start { name, level }).is_err() {
        return Err(NoMemory);
    }
    site.next = level + count;
    Ok(())
}

// Adds the hypotheses of a context that begins at the place. One list of terms serves for all of them: each hypothesis
// adds its variable, and only the arguments are made anew.
fn push_row(
    alloc: Global,
    kept: &[Term],
    ctxs: &[Sym],
    args: &[Pattern],
    inst: &Inst,
    site: &Site,
    hyps: &mut List<Term>,
) -> Result<(), NoMemory>
    requires { IsRowBuildable (instance_of inst.now) (spot_of site.now) ctxs.now args.now 0 kept.now }
    ensures { OnOk result (hyps.new ≡ hyps.old ++ telescope (instance_of inst.now) (spot_of site.now) ctxs.now args.now site.now.next 0 kept.now) }
{
    let mut terms = variables_before(alloc, inst, site, ctxs)?;
    let first = terms.len();
    if args.is_empty() && are_variables(terms.as_slice(), site.next) {
        return share_row(alloc, kept, hyps);
    }
    push_places(args, &mut terms)?;
    for (j, t) in kept.iter().enumerate() {
        let scope = site.next + j as u32;
        set_args(alloc, args, t, first, inst, site, scope, &mut terms)?;
        let hyp = put_in(alloc, t, terms.as_slice(), scope)?;
        if let Err((_, refused)) = hyps.push(hyp) {
            return Err(refused);
        }
        if terms.push(Term::Var(scope)).is_err() {
            return Err(NoMemory);
        }
    }
    Ok(())
}

// Adds the hypotheses of a context in which nothing moves: one more owner of each.
fn share_row(alloc: Global, kept: &[Term], hyps: &mut List<Term>) -> Result<(), NoMemory>
    ensures { OnOk result (hyps.new ≡ hyps.old ++ kept.now) }
{
    for t in kept {
        let hyp = copy(alloc, t)?;
        if let Err((_, refused)) = hyps.push(hyp) {
            return Err(refused);
        }
    }
    Ok(())
}

// Adds a place for each argument. It is set before it is read.
fn push_places(args: &[Pattern], terms: &mut Vec<Term>) -> Result<(), NoMemory>
    ensures { OnOk result (terms.new.items ≡ terms.old.items ++ map (λ arg. Var 0) args.now) }
{
    for _arg in args {
        if terms.push(Term::Var(0)).is_err() {
            return Err(NoMemory);
        }
    }
    Ok(())
}

// Sets the terms from place `first` on to the instances of the arguments that stand in the term, the first of which has
// that level, and to a term that stands for nothing for each other one.
fn set_args(
    alloc: Global,
    args: &[Pattern],
    t: &Term,
    first: usize,
    inst: &Inst,
    site: &Site,
    scope: u32,
    terms: &mut Vec<Term>,
) -> Result<(), NoMemory>
    requires args { AreBuildableArgs (instance_of inst.now) (spot_of site.now) scope args.now scope }
    requires places { first + length args.now ≤ length terms.old.items }
    ensures { OnOk result (AreArgsSet (used_terms (instance_of inst.now) (spot_of site.now) scope t.now first args.now scope) first terms.old.items terms.new.items) }
{
    for (k, arg) in args.iter().enumerate() {
        let made = build_arg(alloc, arg, t, (first + k) as u64, inst, site, scope)?;
        terms[first + k] = made;
    }
    Ok(())
}

// The instance of an argument if it stands in the term, where it has this level; else a term that stands for nothing.
fn build_arg(
    alloc: Global,
    arg: &Pattern,
    t: &Term,
    level: u64,
    inst: &Inst,
    site: &Site,
    scope: u32,
) -> Result<Term, NoMemory>
    requires { IsBuildable (instance_of inst.now) (spot_of site.now) scope arg.now scope }
    ensures { IfOk result (λ made. made ≡ (if occurs_in level t.now then made_at (instance_of inst.now) (spot_of site.now) scope arg.now scope else the_blank)) }
{
    if occurs(t, level) {
        let span = Span { base: scope, scope };
        return build_within(alloc, arg, inst, site, span);
    }
    blank(alloc)
}
