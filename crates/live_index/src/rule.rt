//! The rule that the two copies keep, and the steps that keep it.
ghost use Rattle.std.specs.Prelude.{◌≡◌, Option, None};
ghost use Rattle.live_index.specs.declared.history.History.{History};

use crate::history::History;
use crate::plan::Plan;
use crate::view::Shown;
use atomic_table::{Join, Split};
use crossbeam_utils::rule::{Outcome, Protocol};
use left_right::reader::Reader;
use left_right::writer::Writer;
use std::marker::{Brand, PhantomData};

/// The rule for the plans of one type.
pub struct LiveRule<K> {
    of: PhantomData<K>,
}

impl<K: Plan> Protocol<Shown, Option<History<K>>> for LiveRule<K> {
    ghost use Rattle.live_index.specs.Rule.{IsLive};

    ghost holds = { IsLive K.versions K.planned };

    ghost first = { None };
}

/// A reader enters.
pub(crate) struct Enter;

impl<K: Plan> Outcome<Shown, Option<History<K>>> for Enter {
    ghost use Rattle.live_index.specs.Rule.{Enters};

    ghost then = { Enters K.versions K.planned };
}

/// The publisher publishes.
pub(crate) struct Publish;

impl<K: Plan> Outcome<Shown, Option<History<K>>> for Publish {
    ghost use Rattle.live_index.specs.Rule.{Publishes};

    ghost then = { Publishes K.versions K.planned };
}

/// What is known is told, and who is told knows that.
pub(crate) struct Tell;

impl<K> Split<Option<History<K>>> for Tell {
    ghost left = { λ party. party };

    ghost right = { λ party. party };
}

impl<K> Join<Option<History<K>>> for Tell {
    ghost both = { λ party told. told };

    ghost spent = { None };
}

/// The history that the first publishing tells. The call picks it.
pub(crate) trait Opening<K> {
    ghost opens: { Option (History K) };
}

impl<K> Opening<K> for Brand {
    ghost opens = { None };
}

/// The publisher publishes for the first time.
pub(crate) struct Open<B> {
    of: PhantomData<B>,
}

impl<K, B: Opening<K>> Outcome<Shown, Option<History<K>>> for Open<B> {
    ghost then = { λ before x y after. after ≡ B.opens };
}

pub(crate) type LiveWriter<K> = Writer<Shown, Shown, Option<History<K>>, LiveRule<K>>;

pub(crate) type LivePlace<K> = Reader<Shown, Option<History<K>>, LiveRule<K>>;
