ghost use Rattle.std.specs.Prelude.{◌≡◌};
ghost use Rattle.layout.specs.Refusals.{accepted_with, answered_with, refused_with, refusal_number};

use crate::outcome::{
    ACCEPTED, ALREADY_DELETED, BAD_COLUMNS, BAD_EXPIRY_LIST, BAD_NAME, BAD_POSITIONS,
    BAD_RECORD_COUNT, BAD_STATISTICS, Counts, EXPIRES_LATEST, NAME_TAKEN, NO_ROOM,
    NO_SNAPSHOT_BY_THEN, NOT_LIVE, NOT_RETAINED, NOT_SOUND, NUMBER_TOO_LARGE, Outcome,
    SCHEMA_NOT_EMPTY, SHORT_ANSWER_AREA, TIME_FALLS, UUID_TAKEN,
};

// Why a call does nothing, by who causes it: the host, whoever reads, whoever commits, whoever maintains.
#[derive(Clone, Copy)]
pub enum Refusal {
    NotSound,
    NoRoom,
    ShortAnswerArea,
    NumberTooLarge,
    NotRetained,
    NotLive,
    NoSnapshotByThen,
    TimeFalls,
    BadName,
    NameTaken,
    SchemaNotEmpty,
    BadColumns,
    BadRecordCount,
    UuidTaken,
    BadStatistics,
    BadPositions,
    AlreadyDeleted,
    BadExpiryList,
    ExpiresLatest,
}

impl Refusal {
    // The number that an outcome has for it.
    pub fn number(self) -> u64
        ensures { result ≡ refusal_number self }
    {
        match self {
            Refusal::NotSound => NOT_SOUND,
            Refusal::NoRoom => NO_ROOM,
            Refusal::ShortAnswerArea => SHORT_ANSWER_AREA,
            Refusal::NumberTooLarge => NUMBER_TOO_LARGE,
            Refusal::NotRetained => NOT_RETAINED,
            Refusal::NotLive => NOT_LIVE,
            Refusal::NoSnapshotByThen => NO_SNAPSHOT_BY_THEN,
            Refusal::TimeFalls => TIME_FALLS,
            Refusal::BadName => BAD_NAME,
            Refusal::NameTaken => NAME_TAKEN,
            Refusal::SchemaNotEmpty => SCHEMA_NOT_EMPTY,
            Refusal::BadColumns => BAD_COLUMNS,
            Refusal::BadRecordCount => BAD_RECORD_COUNT,
            Refusal::UuidTaken => UUID_TAKEN,
            Refusal::BadStatistics => BAD_STATISTICS,
            Refusal::BadPositions => BAD_POSITIONS,
            Refusal::AlreadyDeleted => ALREADY_DELETED,
            Refusal::BadExpiryList => BAD_EXPIRY_LIST,
            Refusal::ExpiresLatest => EXPIRES_LATEST,
        }
    }
}

impl Outcome {
    // What a refused call gives: "its number", and the counts as they came.
    pub fn refused(refusal: Refusal, counts: Counts) -> Outcome
        ensures { result ≡ refused_with (refusal_number refusal) counts }
    {
        Outcome {
            number: refusal.number(),
            place: 0,
            length: 0,
            counts,
        }
    }

    // What an accepted call gives: "number 0 and place 0", the answer's length, and the counts after it.
    pub fn accepted(length: usize, counts: Counts) -> Outcome
        ensures { result ≡ accepted_with length counts }
    {
        Outcome {
            number: ACCEPTED,
            place: 0,
            length,
            counts,
        }
    }

    // What a reading gives: its answer's length or a refusal, and the counts as they came.
    pub fn answered(answer: Result<usize, Refusal>, counts: Counts) -> Outcome
        ensures { result ≡ answered_with answer counts }
    {
        match answer {
            Ok(length) => Outcome::accepted(length, counts),
            Err(refusal) => Outcome::refused(refusal, counts),
        }
    }
}
