// The mapping that a program is asked for.
ghost use Rattle.std.specs.Prelude.{◌≡◌, IfSome, None, Ok};
ghost use Rattle.symbols.specs.Mappings.{ReadsBits, bits_in};

use symbols::{Mapping, MappingRefusal};

// By the program's argument, as many bits to a symbol as that says; with no argument 64-QAM.
pub fn mapping_asked(argument: Option<&str>) -> Result<Mapping, MappingRefusal>
    ensures given { IfSome argument.entry (λ text. ReadsBits text.now (bits_in result)) }
    ensures none { argument.entry ≡ None → bits_in result ≡ Ok 6 }
{
    argument.map_or_else(|| Mapping::try_from(6), |text| text.parse())
}
