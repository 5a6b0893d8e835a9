// Theorems over whole runs of calls.
ghost use Rattle.link_theory.specs.Delivery.{BeginIsFresh, Delivery};
ghost use Rattle.link_theory.specs.Symbols.{PacketsHaveLine, SymbolsOfPackets};
ghost use Rattle.link_theory.specs.Worked.{Worked};

// A sender gives the symbols that EN 300 749 has for the packets that it took, whatever the calls; and for every list of packets there is such a line.
pub fn symbols_of_packets()
    ensures symbols { SymbolsOfPackets }
    ensures line { PacketsHaveLine }
{}

// From a moment at which the sender has no undrawn bit and the receiver is fresh, as a begin makes it, every packet arrives in order and once, whatever the
// calls, as long as no word has more than eight damaged bytes.
pub fn delivery()
    ensures delivered { Delivery }
    ensures fresh { BeginIsFresh }
{}

// Worked examples.
pub fn worked_facts()
    ensures { Worked }
{}
