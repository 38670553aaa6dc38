// What an enum's members may be initialised with: `valid_enum_init_expr` and `valid_enum_ts_type`.
ghost use Rattle.std.specs.Prelude.{◌≡◌, ◌||◌};
ghost use Rattle.definition.specs.Record.{kids_of, is};
ghost use Rattle.definition.specs.Enums.{valid_enum_ts_type, valid_enum_init_expr, valid_all};
ghost use Rattle.records.specs.Views.{rec_of};

use records::marks::Mark;
use records::tree::Record;

// `valid_enum_ts_type`: `TsLit::Number`.
fn valid_enum_ts_type(ty: Record) -> bool
    ensures { result ≡ valid_enum_ts_type (rec_of ty.entry) }
{
    ty.mark() == Mark::Tl && ty.children().first().mark() == Mark::Nu
}

// `valid_enum_init_expr`, arm by arm.
#[cycle(enum_values)]
pub fn valid_enum_init_expr(expr: Record) -> bool
    ensures { result ≡ valid_enum_init_expr (rec_of expr.entry) }
{
    match expr.mark() {
        Mark::Bn => {
            let operands = expr.children();
            valid_enum_init_expr(operands.first()) && valid_enum_init_expr(operands.rest().first())
        }
        Mark::Mb | Mark::Pr => valid_enum_init_expr(expr.children().first()),
        Mark::Oc => {
            let member = expr.children().first();
            member.mark() == Mark::Mb && valid_enum_init_expr(member)
        }
        Mark::Id | Mark::Nu | Mark::Ss => true,
        Mark::Te => valid_exprs(expr),
        Mark::As | Mark::Ta => valid_enum_ts_type(expr.children().rest().first()),
        _ => false,
    }
}

// `Expr::Tpl`: whether all its expressions are valid.
#[cycle(enum_values)]
fn valid_exprs(te: Record) -> bool
    ensures { result ≡ valid_all (kids_of (rec_of te.entry)) }
{
    let mut kids = te.children();
    while 0 < kids.count {
        if !valid_part(kids.first()) {
            return false;
        }
        kids = kids.rest();
    }
    true
}

// A child of a template: a Qu, an Op or an expression.
#[cycle(enum_values)]
fn valid_part(kid: Record) -> bool
    ensures { result ≡ ((is "Qu" (rec_of kid.entry) || is "Op" (rec_of kid.entry)) || valid_enum_init_expr (rec_of kid.entry)) }
{
    matches!(kid.mark(), Mark::Qu | Mark::Op) || valid_enum_init_expr(kid)
}
