// The text of a share that was split.
ghost use Rattle.std.specs.Prelude.{◌≡◌, IfOk, string_bytes};
ghost use Rattle.split.specs.Text.{share_text, units_text, unit_text};

use std::alloc::{AllocError, Global};

/// A share, the amount of each unit, their cost and what is not covered, a line for each.
pub(crate) fn share_text(
    heap: Global,
    share: u32,
    amounts: &[u32],
    cost: u64,
    uncovered: u32,
) -> Result<String, AllocError>
    ensures { IfOk result (λ s. string_bytes s ≡ share_text share amounts.now cost uncovered) }
{
    let units = units_text(heap, amounts)?;
    format!(in heap; "share {share}\n{units}cost {cost}\nuncovered {uncovered}\n")
}

#[tactic(auto, using(crate::proofs::Texts::units_more, std::proofs::lemmas::List::take_all))]
fn units_text(heap: Global, amounts: &[u32]) -> Result<String, AllocError>
    ensures { IfOk result (λ s. string_bytes s ≡ units_text 1 amounts.now) }
{
    let mut text = String::new(heap);
    for (i, amount) in amounts.iter().enumerate() {
        let line = unit_text(heap, i + 1, *amount)?;
        text.push_str(line.as_str())?;
    }
    Ok(text)
}

fn unit_text(heap: Global, number: usize, amount: u32) -> Result<String, AllocError>
    ensures { IfOk result (λ s. string_bytes s ≡ unit_text number amount) }
{
    format!(in heap; "unit {number} {amount}\n")
}
