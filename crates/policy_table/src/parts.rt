// The words of one part: a definition's, out of the policy, or the query.
ghost use Rattle.std.specs.Prelude.{◌+◌, ◌*◌, ◌≡◌};
ghost use Rattle.policy.specs.Part.{part_span, part_words};
ghost use Rattle.policy_table.specs.Spans.{part_span_is};

use crate::reading::Table;
use refusals::QUERY_PART;

// Two places, neither of which is a failure; the start and the size are what C is told.
#[derive(Clone, Copy, Debug, PartialEq, Eq)]
pub enum PartSpan {
    InPolicy { start: usize, size: usize },
    WholeQuery,
}

// Where part `number` lies.
pub fn part_span(policy: &[u32], number: u32) -> PartSpan
    ensures { part_span_is result ≡ part_span policy.now number }
{
    let nowhere = PartSpan::InPolicy { start: 0, size: 0 };
    let Ok(table) = Table::read(policy) else {
        return nowhere;
    };
    if number == QUERY_PART {
        return PartSpan::WholeQuery;
    }
    let i = number as usize;
    if table.count <= i {
        return nowhere;
    }
    let entry = table.entry(i);
    PartSpan::InPolicy {
        start: entry.offset,
        size: entry.size,
    }
}

// That part's words, themselves.
pub fn part<'a>(policy: &'a [u32], query: &'a [u32], number: u32) -> &'a [u32]
    ensures { result.now ≡ part_words policy.now query.now number }
{
    match part_span(policy, number) {
        PartSpan::WholeQuery => query,
        PartSpan::InPolicy { start, size } => &policy[start..start + size],
    }
}
