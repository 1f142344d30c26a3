//! The rule of the board's places, and their steps.
use crate::face::Face;
use crate::front::Front;
use atomic_table::{Join, Split};
use crossbeam_utils::rule::{Outcome, Protocol};
use left_right::reader::Reader;
use left_right::writer::Writer;

/// The rule: what each place knows begins the list of the moment that is shown.
pub(crate) struct OneList;

impl Protocol<Face, Front> for OneList {
    ghost use Rattle.page_board.specs.BoardPlaces.{AllKnow, nowhere};

    ghost holds = { λ x. AllKnow x.1 };

    ghost first = { nowhere };
}

/// A place sees the moment that is shown.
pub(crate) struct Sees;

impl Outcome<Face, Front> for Sees {
    ghost use Rattle.page_board.specs.BoardPlaces.{LearnsShown};

    ghost then = { λ v x y w. LearnsShown v y.1 w };
}

/// Telling: a copy of what the writer knows.
pub(crate) struct Tells;

impl Split<Front> for Tells {
    ghost left = { λ v. v };

    ghost right = { λ v. v };
}

/// Learning, by a place that knows nothing yet.
pub(crate) struct Learns;

impl Join<Front> for Learns {
    ghost use Rattle.page_board.specs.BoardPlaces.{nowhere};

    ghost both = { λ v w. w };

    ghost spent = { nowhere };
}

/// A place of a reader.
pub(crate) type FaceReader = Reader<Face, Front, OneList>;

/// The place of the writer, with both copies.
pub(crate) type FaceWriter = Writer<Face, Face, Front, OneList>;
