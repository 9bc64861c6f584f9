ghost use Rattle.std.specs.Prelude.{◌≡◌};
ghost use Rattle.layout.specs.Kinds.{kind_number, kind_of};

use crate::record::{
    CREATED_SCHEMA, CREATED_TABLE, DELETED_FROM_TABLE, DROPPED_SCHEMA, DROPPED_TABLE,
    INSERTED_INTO_TABLE,
};

// The kinds of change that a snapshot records.
#[derive(Clone, Copy)]
pub enum ChangeKind {
    CreatedSchema,
    CreatedTable,
    InsertedIntoTable,
    DeletedFromTable,
    DroppedSchema,
    DroppedTable,
}

impl ChangeKind {
    // The kind of that number, if it is one's.
    #[tactic(auto, unfolding(crate::specs::Kinds::kind_of))]
    pub fn of(number: u64) -> Option<ChangeKind>
        ensures { result ≡ kind_of number }
    {
        match number {
            CREATED_SCHEMA => Some(ChangeKind::CreatedSchema),
            CREATED_TABLE => Some(ChangeKind::CreatedTable),
            INSERTED_INTO_TABLE => Some(ChangeKind::InsertedIntoTable),
            DELETED_FROM_TABLE => Some(ChangeKind::DeletedFromTable),
            DROPPED_SCHEMA => Some(ChangeKind::DroppedSchema),
            DROPPED_TABLE => Some(ChangeKind::DroppedTable),
            _ => None,
        }
    }
}

impl From<ChangeKind> for u64 {
    fn from(kind: ChangeKind) -> u64
        ensures { result ≡ kind_number kind }
    {
        match kind {
            ChangeKind::CreatedSchema => CREATED_SCHEMA,
            ChangeKind::CreatedTable => CREATED_TABLE,
            ChangeKind::InsertedIntoTable => INSERTED_INTO_TABLE,
            ChangeKind::DeletedFromTable => DELETED_FROM_TABLE,
            ChangeKind::DroppedSchema => DROPPED_SCHEMA,
            ChangeKind::DroppedTable => DROPPED_TABLE,
        }
    }
}
