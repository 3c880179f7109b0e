//! The tower recognizes each of its marks.
use crate::tower::{Tower, TowerBody};
use machine_laws::Marking;
use request_once::Body;
use wire_bytes::Mark;

impl Marking for Tower {
    ghost use Rattle.bouncer_tower.specs.Telling.{mark_in, tower_tells};

    ghost marked = { mark_in };

    fn marked(body: &TowerBody) -> Option<Mark> {
        match body {
            Body::Mark(mark) => Some(*mark),
            Body::Inner(_) | Body::Asked(_, _, _, _) | Body::Blank => None,
        }
    }

    ghost tells = { tower_tells };
}
