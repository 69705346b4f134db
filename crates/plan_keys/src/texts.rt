//! Texts as tables.

ghost use Rattle.std.specs.Prelude.{◌≡◌, ◌⊎◌, MatchResult, Ok, Err};
ghost use Rattle.toml.specs.View.{table_view};
ghost use Rattle.plan_keys.specs.declared.fault.PlanFault.TheVariants.{Memory};
ghost use Rattle.plan_keys.specs.Faults.{text_says};

use crate::fault::{Key, PlanFault, Wanted};
use std::alloc::Global;
use toml::Table;

/// The longest text of a plan, in bytes.
pub const LONGEST: usize = 65536;

/// The table of a text of at most 65,536 bytes.
#[tactic(auto, using(crate::proofs::Documents::is_document, crate::proofs::Documents::is_no_document))]
pub fn document(alloc: Global, text: &[u8]) -> Result<Table, PlanFault>
    ensures { MatchResult result (λ table. text_says text.now ≡ Ok (table_view table)) (λ fault. (fault ≡ Memory) ⊎ (text_says text.now ≡ Err fault)) }
{
    if text.len() > LONGEST {
        let wanted = Wanted::Said("at most 65536");
        return Err(PlanFault::OverLimit(Key::at(alloc, "", "bytes", wanted)?));
    }
    match toml::table_from_slice(alloc, text) {
        Ok(table) => Ok(table),
        Err(e) if e.is_memory() => Err(PlanFault::Memory),
        Err(_) => Err(PlanFault::NotToml),
    }
}
