// A column type: its code, its lowest and its highest value.
#[derive(Clone, Copy)]
pub struct TypeRange {
    pub code: u64,
    pub low: i64,
    pub high: i64,
}
