// The line's bytes to symbols of 16-, 32- and 64-QAM, and back.
#![tactic(auto)]

ghost use Rattle.symbols.specs.Laws.{BooleanExpression, ClosedForm, DecodedIsSent, ReadBytes, UndamagedBytes, WorkedSymbols, WrittenIsRead};

mod differential;
mod mapping;
mod reader;
mod refusal;
mod writer;

pub use mapping::Mapping;
pub use reader::SymbolReader;
pub use refusal::{AppendRefusal, MappingRefusal};
pub use writer::SymbolWriter;

// What symbols keep to, over every number of bits to a symbol.
pub fn symbol_laws()
    ensures expression { BooleanExpression }
    ensures closed { ClosedForm }
    ensures decoded { DecodedIsSent }
    ensures bytes { ReadBytes }
    ensures read { WrittenIsRead }
    ensures undamaged { UndamagedBytes }
    ensures worked { WorkedSymbols 6 }
{}
