ghost use Rattle.std.specs.Prelude.{◌≡◌, IfOk, OnOk, map};
ghost use Rattle.mp_schematext.specs.Buildable.{AreFaultlessItems, AreFaultlessPremises, IsFaultlessItem, IsFaultlessSchema};
ghost use Rattle.mp_schematext.specs.Scopes.{env_past, env_behind};
ghost use Rattle.mp_schematext.specs.Values.{item_of, items_of, schema_of};

use crate::{RawItem, RawSchema};
use mp_logic::{List, NoMemory, Sym};
use mp_patterntext::{build_args, build_pattern, copy_names};
use mp_schema::{Item, Schema};
use std::alloc::Global;

/// The item that is written; the name of a hypothesis is bound after it.
fn build_item(alloc: Global, raw: &RawItem, env: &mut Vec<Sym>) -> Result<Item, NoMemory>
    requires faultless { IsFaultlessItem raw.now env.old.items }
    ensures value { IfOk result (λ i. i ≡ item_of raw.now env.old.items) }
    ensures env { OnOk result (env.new.items ≡ env_past raw.now env.old.items) }
{
    match raw {
        RawItem::Ctx {
            name,
            ctxs,
            args,
            ..
        } => {
            let ctxs = copy_names(alloc, ctxs.as_slice())?;
            let args = build_args(alloc, args.as_slice(), env)?;
            Ok(Item::Ctx {
                name: name.name,
                ctxs,
                args,
            })
        }
        RawItem::Hyp { name, pattern, .. } => {
            let pattern = build_pattern(alloc, pattern, env)?;
            if env.push(*name).is_err() {
                return Err(NoMemory);
            }
            Ok(Item::Hyp(pattern))
        }
    }
}

fn build_items(alloc: Global, items: &[RawItem], env: &mut Vec<Sym>) -> Result<List<Item>, NoMemory>
    requires faultless { AreFaultlessItems items.now env.old.items }
    ensures value { IfOk result (λ is. is ≡ items_of items.now env.old.items) }
    ensures env { OnOk result (env.new.items ≡ env_behind items.now env.old.items) }
{
    let mut built = List::with_capacity(alloc, items.len() as u64)?;
    for raw in items {
        let item = build_item(alloc, raw, env)?;
        if let Err((_, refused)) = built.push(item) {
            return Err(refused);
        }
    }
    Ok(built)
}

/// The schema that is written, where no static rule is broken.
pub fn build_schema(alloc: Global, raw: &RawSchema) -> Result<Schema, NoMemory>
    requires faultless { IsFaultlessSchema raw.now }
    ensures { IfOk result (λ s. s ≡ schema_of raw.now) }
{
    let mut env = Vec::new(alloc);
    let items = build_items(alloc, raw.items.as_slice(), &mut env)?;
    let concl = build_pattern(alloc, &raw.concl, &mut env)?;
    Ok(Schema { items, concl })
}

/// The premises that are written, where no static rule is broken.
pub fn build_premises(alloc: Global, raws: &[RawSchema]) -> Result<List<Schema>, NoMemory>
    requires faultless { AreFaultlessPremises raws.now }
    ensures { IfOk result (λ ss. ss ≡ map schema_of raws.now) }
{
    let mut built = List::with_capacity(alloc, raws.len() as u64)?;
    for raw in raws {
        let schema = build_schema(alloc, raw)?;
        if let Err((_, refused)) = built.push(schema) {
            return Err(refused);
        }
    }
    Ok(built)
}
