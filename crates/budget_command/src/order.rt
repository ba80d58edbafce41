//! The words behind `budget`.
ghost use Rattle.std.specs.Prelude.{◌≡◌, ◌≤◌, ◌<◌, IfSome, length, map, string_bytes};
ghost use Rattle.budget_command.specs.Order.{budget_order, order_of};

use exact_fraction::{Decimal, read_decimal, read_plain_number};
use slo_limits::{MAX_MINUTE, WHOLE};

/// What `budget TARGET FROM TO` asks for: the budget of a target over the minutes of [from, to),
/// counted from 1970-01-01T00:00Z.
#[derive(Clone, Copy, Debug)]
pub struct BudgetOrder {
    pub target: Decimal,
    pub from: u32,
    pub to: u32,
}

/// What the three words behind `budget` ask for; None where one of them breaks its rule.
pub fn read_order(target: &[u8], from: &[u8], to: &[u8]) -> Option<BudgetOrder>
    ensures order { result ≡ order_of target.now from.now to.now }
    ensures below_one { IfSome result (λ order. order.target < WHOLE) }
    ensures range { IfSome result (λ order. order.from ≤ order.to) }
{
    let target = read_decimal(target).ok()?;
    let from = read_plain_number(from, u64::from(MAX_MINUTE))?;
    let to = read_plain_number(to, u64::from(MAX_MINUTE))?;
    if target.billionths() < WHOLE && from <= to {
        Some(BudgetOrder {
            target,
            from: from as u32,
            to: to as u32,
        })
    } else {
        None
    }
}

/// What the words behind `budget` ask for; None where they aren't of its form.
pub fn read_budget(words: &[String]) -> Option<BudgetOrder>
    ensures order { result ≡ budget_order (map string_bytes words.now) }
    ensures below_one { IfSome result (λ order. order.target < WHOLE) }
    ensures range { IfSome result (λ order. order.from ≤ order.to) }
{
    if words.len() != 3 {
        return None;
    }
    read_order(
        words[0].as_bytes(),
        words[1].as_bytes(),
        words[2].as_bytes(),
    )
}
