// Theorems about the definitions that the contracts of this crate use.
ghost use Rattle.framing.specs.Laws.{CodedIsEncoded, MaskBegins, MaskEnds, MaskRecurs, NearestIsNear, ReadBack};

// The mask's recurrence, its first bytes and its last one.
pub fn mask_follows_its_rule()
    ensures recurs { MaskRecurs }
    ensures begins { MaskBegins }
    ensures ends { MaskEnds }
{}

// What is randomized is restored, and what is coded is the encoder's word.
pub fn packets_come_back()
    ensures back { ReadBack }
    ensures coded { CodedIsEncoded }
{}

// The word that the word reader's definition looks for among all words is the corrector's.
pub fn nearest_is_near()
    ensures { NearestIsNear }
{}
