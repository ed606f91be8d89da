// The refusals: one case for each number of the papers that a call can give. 13 to 15 are free: they come with other requests.
ghost use Rattle.std.specs.Prelude.{◌≡◌};
ghost use Rattle.quantity.specs.Refusals.{number_of};

#[derive(Clone, Copy)]
pub enum Refusal {
    // the number of bands is not the kind's
    BandCount = 1,
    // a float is NaN or infinite
    NotFinite = 2,
    // a reading is missing
    ReadingMissing = 3,
    // a band value is out of range
    BandRange = 4,
    // laboratory rule, total less than 6.0 dB above the background
    BackgroundTooNear = 5,
    // a derived value is out of range
    DerivedRange = 6,
    // the reverberation time is out of range
    TimeRange = 7,
    // the target is not better than the rating
    TargetNotBetter = 8,
    // the target is outside -100..200
    TargetRange = 9,
    // the lent output is too small, or the offset beyond its end
    OutputTooSmall = 10,
    // the line is not a request
    NotARequest = 11,
    // the specimens are not 48 values
    SpecimenCount = 12,
    // the price is out of range
    PriceRange = 16,
    // the customer and key are there with another kind or other bands
    OtherBands = 17,
    // no room for a new key
    RegisterFull = 18,
    // the register is one that no calls could have left so
    RegisterDamaged = 19,
}

impl Refusal {
    // The number that the paper gives this refusal.
    pub fn number(self) -> u32
        ensures { result ≡ number_of self }
    {
        self as u32
    }
}
