// The page: a line for each mapping, delay line and damage.
use crate::damage::Damage;
use crate::path::loop_back;
use delay_line::{BoardDelay, Interleaving, NoDelay, Scheme, Stack};
use symbols::Mapping;

const DAMAGES: [Damage; 4] = [
    Damage::Clean,
    Damage::Scattered(5),
    Damage::Scattered(15),
    Damage::Bursts,
];

// Where the page is printed, and the stream that it is about.
#[derive(Clone, Copy)]
pub struct Table<'a, R> {
    pub rt: &'a R,
    pub stream: &'a [u8],
}

impl<R: Print> Table<'_, R> {
    pub fn print_heading(&self) -> anyhow::Result<()> {
        println!(self.rt;
            "{:<7} {:<24} {:<14} {:>6} {:>9} {:>8} {:>7} {:>7} {:>7} {:>9} {:>5} packets",
            "mapping",
            "delay line",
            "damage",
            "loaded",
            "collected",
            "repaired",
            "fault11",
            "fault12",
            "fault13",
            "under way",
            "first"
        )?;
        Ok(())
    }

    // The lines of a delay line.
    fn print_scheme<S: Scheme>(
        &self,
        mapping: Mapping,
        name: &str,
        scheme: &S,
    ) -> anyhow::Result<()> {
        for damage in DAMAGES {
            let tally = loop_back(scheme, mapping, damage, self.stream)?;
            println!(self.rt; "{mapping:<7} {name:<24} {damage} {tally}")?;
        }
        Ok(())
    }

    // The lines of a mapping.
    pub fn print_mapping(&self, mapping: Mapping) -> anyhow::Result<()> {
        self.print_scheme(mapping, "straight", &NoDelay)?;
        self.print_scheme(mapping, "interleaver", &Interleaving)?;
        let stack = Stack::new(BoardDelay::try_from(7)?, Interleaving);
        self.print_scheme(mapping, "board 7 over interleaver", &stack)
    }
}
