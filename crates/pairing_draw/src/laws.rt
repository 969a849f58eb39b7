ghost use Rattle.pairing_draw.specs.Laws.{OfferExists};

/// Each state of a pairing has an offer, be it an empty one.
pub fn law_offer_exists()
    ensures { OfferExists }
{}
