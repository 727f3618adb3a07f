//! The script of a seed and a size.
ghost use Rattle.std.specs.Prelude.{◌≡◌, IfOk};
ghost use Rattle.script_gen.specs.Generated.{generated, session_names};

use crate::writer::Writer;
use script_lines::Header;
use session_lang::Script;
use std::alloc::Global;
use tx_model::{Memory, Name, NameList};

/// The names of the sessions, a letter each.
const NAMES: [u8; 4] = *b"abcd";

/// The names of as many of the sessions as have a transaction.
fn session_names(alloc: Global, size: u32) -> Result<NameList, Memory>
    ensures { IfOk result (λ names. names ≡ session_names size) }
{
    let mut names = NameList::new(alloc);
    let count = (size as usize).min(NAMES.len());
    for letter in &NAMES[..count] {
        names.push(Name::of(&[*letter]))?;
    }
    Ok(names)
}

/// The script of `gen SEED SIZE`: so many transactions, of four sessions in turn, 64 a round, each with the savepoints,
/// the look and the end that are drawn from the seed. It has no header. Up to 100,000 transactions the run takes it.
#[tactic(auto, unfolding(crate::specs::Generated::generated))]
pub fn generate(alloc: Global, seed: u32, size: u32) -> Result<Script, Memory>
    ensures { IfOk result (λ script. script ≡ generated seed size) }
{
    let mut writer = Writer::new(alloc, seed);
    for number in 0..size {
        writer.put_transaction(number)?;
    }
    let header = Header::new();
    Ok(Script {
        base: header.base(),
        banks: header.banks(),
        names: session_names(alloc, size)?,
        items: writer.items,
    })
}
