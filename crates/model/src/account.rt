// The accounts of a ledger, as they are lent.

// A station's account: kWh sold and money paid.
#[repr(C)]
#[derive(Clone, Copy)]
pub struct StationAccount {
    pub sold: u64,
    pub paid: u64,
}
