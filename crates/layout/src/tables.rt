// The twelve lent runs, to read: nine of words and three of names' bytes.
#[derive(Clone, Copy)]
pub struct Tables<'a> {
    pub snapshots: &'a [u64],
    pub schemas: &'a [u64],
    pub schema_names: &'a [u8],
    pub tables: &'a [u64],
    pub table_names: &'a [u8],
    pub columns: &'a [u64],
    pub column_names: &'a [u8],
    pub data_files: &'a [u64],
    pub delete_files: &'a [u64],
    pub positions: &'a [u64],
    pub statistics: &'a [u64],
    pub scheduled: &'a [u64],
}
