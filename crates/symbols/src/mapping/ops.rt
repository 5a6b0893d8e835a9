// Making a mapping, and its name.
ghost use Rattle.std.specs.Prelude.{◌≡◌, Some};
ghost use Rattle.std.specs.Fmt.{padded};
ghost use Rattle.symbols.specs.Mappings.{ReadsBits, bits_for, bits_in, name_for};

use super::Mapping;
use crate::refusal::MappingRefusal;
use std::fmt;
use std::str::FromStr;

impl TryFrom<u32> for Mapping {
    type Error = MappingRefusal;

    ghost try_from_gives = { λ bits result. bits_in result ≡ bits_for bits };

    fn try_from(bits: u32) -> Result<Mapping, MappingRefusal> {
        match bits {
            4..=6 => Ok(Mapping { bits }),
            _ => Err(MappingRefusal::BitsPerSymbol),
        }
    }
}

// A mapping is written as its number of bits.
impl FromStr for Mapping {
    type Err = MappingRefusal;

    ghost from_str_gives = { λ text result. ReadsBits text (bits_in result) };

    fn from_str(text: &str) -> Result<Mapping, MappingRefusal> {
        match text.parse::<u32>() {
            Ok(bits) => Mapping::try_from(bits),
            Err(_) => Err(MappingRefusal::BitsPerSymbol),
        }
    }
}

impl fmt::Display for Mapping {
    ghost output = { λ mapping. Some (name_for mapping.bits) };

    ghost styled_output = { λ mapping style. Some (padded style (name_for mapping.bits)) };

    fn fmt<W: fmt::Write>(&self, f: &mut fmt::Formatter<W>) -> fmt::Result {
        f.pad(match self.bits {
            4 => "16-QAM",
            5 => "32-QAM",
            _ => "64-QAM",
        })
    }
}

impl Mapping {
    // Bits to a symbol.
    pub fn bits(&self) -> u32
        ensures { result ≡ self.now.bits }
    {
        self.bits
    }
}
