//! What each step tells its pass.
ghost use Rattle.hall.specs.Told.{looked, went, freed, asks, reads, checks, publishes, settles, giving, given, joined, spent};

use crate::law::Law;
use crate::view::{Held, View};
use atomic_table::{Join, Play, Split};
use std::marker::PhantomData;

pub(crate) struct Look<L> {
    law: PhantomData<L>,
}

impl<L: Law> Play<Held<L::Value, L::Entry>, View<L::Start, L::Entry>> for Look<L> {
    ghost then = { looked L.session L.writer L.stands L.kept };
}

pub(crate) struct Leave;

impl<S, V, E> Play<Held<V, E>, View<S, E>> for Leave {
    ghost then = { went };
}

pub(crate) struct Release;

impl<S, V, E> Play<Held<V, E>, View<S, E>> for Release {
    ghost then = { freed };
}

pub(crate) struct Read<L> {
    law: PhantomData<L>,
}

impl<L: Law> Play<Held<L::Value, L::Entry>, View<L::Start, L::Entry>> for Read<L> {
    ghost then = { reads L.session L.writer L.number L.kept };
}

pub(crate) struct Check<L> {
    law: PhantomData<L>,
}

impl<L: Law> Play<Held<L::Value, L::Entry>, View<L::Start, L::Entry>> for Check<L> {
    ghost then = { checks L.writer L.number };
}

pub(crate) struct Settle<L> {
    law: PhantomData<L>,
}

impl<L: Law> Play<Held<L::Value, L::Entry>, View<L::Start, L::Entry>> for Settle<L> {
    ghost then = { settles L.session L.writer L.kept };
}

pub(crate) struct Publish;

impl<S, V, E> Play<Held<V, E>, View<S, E>> for Publish {
    ghost then = { publishes };
}

pub(crate) struct Ask;

impl<S, V, E> Play<Held<V, E>, View<S, E>> for Ask {
    ghost then = { asks };
}

pub(crate) struct Cut;

impl<S, E> Split<View<S, E>> for Cut {
    ghost left = { giving };

    ghost right = { given };
}

pub(crate) struct Glue;

impl<S, E> Join<View<S, E>> for Glue {
    ghost both = { joined };

    ghost spent = { spent };
}
