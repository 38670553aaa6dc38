// The keys of class members, as records: `is_well_known_symbol_expr` and `valid_prop_name`.
ghost use Rattle.std.specs.Prelude.{◌≡◌};
ghost use Rattle.definition.specs.Record.{kids_of};
ghost use Rattle.definition.specs.Names.{prop_name_from_expr, valid_prop_name};
ghost use Rattle.records.specs.Views.{rec_of};
ghost use Rattle.names.specs.Keys.{is_well_known_member, only_expression, KeyIs};

use crate::symbols::is_well_known;
use records::marks::Mark;
use records::tree::Record;

// `PropName`: the record that stands as the key, or the one over which a fresh Kc is made.
#[derive(Clone, Copy)]
pub enum Key<'t> {
    Stands(Record<'t>),
    Computed(Record<'t>),
}

// `is_well_known_symbol_expr`
pub fn is_well_known_symbol_expr(expr: Record, unresolved: u32) -> bool
    ensures { result ≡ is_well_known_member unresolved (rec_of expr.entry) }
{
    if expr.mark() != Mark::Mb {
        return false;
    }
    let parts = expr.children();
    if !parts.first().is_global(unresolved, b"Symbol") {
        return false;
    }
    let property = parts.rest().first();
    property.mark() == Mark::Ki && is_well_known(property.text())
}

// `e.quasis.is_empty() && e.exprs.len() == 1`: whether the children of a Te are one expression, but for Ops at the end.
fn is_one_expression(te: Record) -> bool
    ensures { result ≡ only_expression (kids_of (rec_of te.entry)) }
{
    let kids = te.children();
    if kids.count == 0 {
        return false;
    }
    match kids.first().mark() {
        Mark::Qu | Mark::Op => return false,
        _ => {}
    }
    if kids.count == 1 {
        return true;
    }
    kids.rest().first().mark() == Mark::Op
}

// `prop_name_from_expr`
fn prop_name_from_expr<'t>(expr: Record<'t>, unresolved: u32) -> Option<Key<'t>>
    ensures { KeyIs expr.entry result (prop_name_from_expr (rec_of expr.entry) unresolved) }
{
    match expr.mark() {
        Mark::Ss | Mark::Nu | Mark::Bi => Some(Key::Stands(expr)),
        Mark::Te => {
            if is_one_expression(expr) {
                return prop_name_from_expr(expr.children().first(), unresolved);
            }
            None
        }
        Mark::Pr | Mark::Ta | Mark::Tc | Mark::Nn | Mark::As | Mark::Ts => {
            prop_name_from_expr(expr.children().first(), unresolved)
        }
        Mark::Id => Some(Key::Computed(expr)),
        Mark::Mb => {
            if is_well_known_symbol_expr(expr, unresolved) {
                return Some(Key::Computed(expr));
            }
            None
        }
        _ => None,
    }
}

// `valid_prop_name`: "Ki, Ss, Nu, Bi stand"; of a Kc what its expression gives.
pub fn valid_prop_name<'t>(key: Record<'t>, unresolved: u32) -> Option<Key<'t>>
    ensures { KeyIs key.entry result (valid_prop_name unresolved (rec_of key.entry)) }
{
    if key.mark() == Mark::Kc {
        return prop_name_from_expr(key.children().first(), unresolved);
    }
    Some(Key::Stands(key))
}
