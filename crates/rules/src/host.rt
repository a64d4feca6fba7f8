// What a host in C gives and is given: plain numbers, laid out as C lays them out. Each answer begins with the refusal.
// A struct that is passed by value can hold no array, so a lot has a field for each of its places; C lays these out as an array.

// Why there is no answer: the refusal's number, 0 for none.
#[repr(C)]
#[derive(Clone, Copy, Default)]
pub struct HostRefusal {
    pub number: u32,
}

#[repr(C)]
#[derive(Clone, Copy, Default)]
pub struct HostLimit {
    pub number: i32,
    pub presence: u32,
}

#[repr(C)]
#[derive(Clone, Copy, Default)]
pub struct HostLot {
    pub upper: HostLimit,
    pub lower: HostLimit,
    pub count: u32,
    pub first: i32,
    pub second: i32,
    pub third: i32,
    pub fourth: i32,
    pub fifth: i32,
    pub sixth: i32,
    pub seventh: i32,
    pub eighth: i32,
    pub ninth: i32,
    pub tenth: i32,
    pub eleventh: i32,
    pub twelfth: i32,
    pub thirteenth: i32,
    pub fourteenth: i32,
    pub fifteenth: i32,
    pub sixteenth: i32,
    pub seventeenth: i32,
}

#[repr(C)]
#[derive(Clone, Copy, Default)]
pub struct HostMean {
    pub refusal: HostRefusal,
    pub total: i32,
    pub count: u32,
}

#[repr(C)]
#[derive(Clone, Copy, Default)]
pub struct HostDeviation {
    pub refusal: HostRefusal,
    pub deviation: i32,
}

#[repr(C)]
#[derive(Clone, Copy, Default)]
pub struct HostTried {
    pub upper: u32,
    pub lower: u32,
}

#[repr(C)]
#[derive(Clone, Copy, Default)]
pub struct HostPercentages {
    pub refusal: HostRefusal,
    pub upper: i64,
    pub lower: i64,
    pub pwl: i64,
    pub tried: HostTried,
}

#[repr(C)]
#[derive(Clone, Copy, Default)]
pub struct HostPayment {
    pub refusal: HostRefusal,
    pub composite: i64,
    pub vma: u32,
    pub voids: u32,
    pub density: u32,
    pub lot: u32,
    pub pay: i64,
}

#[repr(C)]
#[derive(Clone, Copy, Default)]
pub struct HostPair {
    pub lower: i32,
    pub upper: i32,
}

#[repr(C)]
#[derive(Clone, Copy, Default)]
pub struct HostMixtureLimits {
    pub refusal: HostRefusal,
    pub vma: HostPair,
    pub voids: HostPair,
    pub density: HostPair,
}

#[repr(C)]
#[derive(Clone, Copy, Default)]
pub struct HostRead {
    pub refusal: HostRefusal,
    pub lot: HostLot,
}

#[repr(C)]
#[derive(Clone, Copy, Default)]
pub struct HostWritten {
    pub refusal: HostRefusal,
    pub size: usize,
}

#[repr(C)]
#[derive(Clone, Copy, Default)]
pub struct HostListed {
    pub refusal: HostRefusal,
    pub items: usize,
}

#[repr(C)]
#[derive(Clone, Copy, Default)]
pub struct HostPlace {
    pub refusal: HostRefusal,
    pub start: usize,
}

#[repr(C)]
#[derive(Clone, Copy, Default)]
pub struct HostRow {
    pub refusal: HostRefusal,
    pub mean: f64,
    pub deviation: f64,
    pub pwl: f64,
}

#[repr(C)]
#[derive(Clone, Copy)]
pub struct HostSheet {
    pub vma: i64,
    pub voids: i64,
    pub density: i64,
    pub composite: i64,
    pub verdict: i64,
    pub pay: i64,
}

#[repr(C)]
#[derive(Clone, Copy, Default)]
pub struct HostChecked {
    pub refusal: HostRefusal,
    pub accepted: u32,
    pub entry: u32,
    pub sheet: i64,
    pub ours: i64,
}
