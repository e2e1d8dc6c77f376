// A plan told in words: a plan's name with its numbers, and then layers, each over what stands before it.
use crate::fault::Fault;
use crate::words::Words;
use pile::{AnyLayer, Base, Pile, piled};
use plan::{Doubling, Table};
use std::alloc::Global;
use std::array;

// Periods may be told up to this number, so that the library is the judge of their limits.
const MOST_PERIOD: usize = 65535;

// What follows `doubling`: ORDER.
fn parse_doubling(words: &mut Words) -> Result<Base, Fault> {
    Ok(Base::Doubling(Doubling::new(words.byte()?)?))
}

// What follows `table`: ROWS COLUMNS RANKS.., where the ranks go on as long as there are numbers.
fn parse_table(words: &mut Words) -> Result<Base, Fault> {
    let rows = words.number(MOST_PERIOD)?;
    let columns = words.number(MOST_PERIOD)?;
    let ranks = words.bytes()?;
    let mut table = Table::new();
    table.write(rows, columns, ranks.as_slice())?;
    Ok(Base::Table(table))
}

// The plan that the first words tell.
fn parse_base(words: &mut Words) -> Result<Base, Fault> {
    match words.next().ok_or(Fault::NoPlan)? {
        "knuth" => Ok(Base::Knuth),
        "doubling" => parse_doubling(words),
        "table" => parse_table(words),
        other => Err(Fault::UnknownPlan(words.owned(other)?)),
    }
}

// What follows `shift`: ROWS COLUMNS.
fn parse_shift(words: &mut Words) -> Result<AnyLayer, Fault> {
    let rows = words.byte()?;
    let columns = words.byte()?;
    Ok(AnyLayer::Shift { rows, columns })
}

// The layer that the next words tell, where there are words left.
fn parse_layer(words: &mut Words) -> Result<Option<AnyLayer>, Fault> {
    let Some(name) = words.next() else {
        return Ok(None);
    };
    let layer = match name {
        "mirror" => AnyLayer::Mirror,
        "turn" => AnyLayer::Turn,
        "reverse" => AnyLayer::Reverse,
        "shift" => parse_shift(words)?,
        other => return Err(Fault::UnknownLayer(words.owned(other)?)),
    };
    Ok(Some(layer))
}

// The layers that the words tell up to their end.
fn parse_layers(words: &mut Words) -> Result<[Option<AnyLayer>; 5], Fault> {
    let layers = array::try_from_fn(|_| parse_layer(words))?;
    match words.next() {
        None => Ok(layers),
        Some(_) => Err(Fault::TooManyLayers),
    }
}

// The plan and the layers over it that the words tell.
pub fn parse_pile(heap: Global, words: &[String]) -> Result<Pile, Fault> {
    let mut words = Words::new(heap, words);
    let base = parse_base(&mut words)?;
    let layers = parse_layers(&mut words)?;
    Ok(piled(base, layers))
}
