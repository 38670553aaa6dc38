// Demand 3 on the exported call: what the transform made, transformed again.
ghost use Rattle.definition.specs.Demand3.{Supposed};
ghost use Rattle.definition.specs.Transform.{call};
ghost use Rattle.transform_dts.specs.Answers.{Gives};
ghost use Rattle.transform_dts.specs.Twice.{first_of, GivesAgain, Same};

use crate::{Done, transform};
use grammar::Refused;

// What a call wrote, and what the call on that answered.
#[derive(Clone, Copy, PartialEq, Eq, Debug)]
pub struct Twice {
    pub first: Done,
    pub second: Result<Done, Refused>,
}

// "The second call reads exactly the bytes that the first wrote": a call, and where it succeeds one on what it wrote, into other buffers.
pub fn transform_twice(
    tree: &[u8],
    list: &[u8],
    unresolved_context: u32,
    out: &mut [u8],
    diagnostics: &mut [u8],
    again: &mut [u8],
    others: &mut [u8],
) -> Result<Twice, Refused>
    ensures first { Gives (call tree.now list.now unresolved_context out.old diagnostics.old)
        (first_of result) out.new diagnostics.new }
    ensures second { GivesAgain list.now unresolved_context out.new again.old others.old
        result again.new others.new }
    ensures demand3 { Supposed tree.now list.now unresolved_context
        out.old diagnostics.old again.old others.old
        → Same tree.now list.now unresolved_context result out.new again.new }
{
    let first = transform(tree, list, unresolved_context, out, diagnostics)?;
    let second = transform(
        &out[..first.length],
        list,
        unresolved_context,
        again,
        others,
    );
    Ok(Twice { first, second })
}
