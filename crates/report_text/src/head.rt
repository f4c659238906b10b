use crate::{EndParts, Shown};
use arrayvec::ArrayVec;

/// A line that an event of a run makes, but for the bytes of a command, a response or a message.
#[derive(Drop)]
pub(crate) enum Head {
    Power {
        lane: u8,
        card: ArrayVec<u8, 16>,
        apps: ArrayVec<Shown, 4>,
    },
    PowerCanned {
        lane: u8,
        card: ArrayVec<u8, 16>,
    },
    PowerTorn {
        lane: u8,
        card: ArrayVec<u8, 16>,
    },
    ToCard {
        lane: u8,
    },
    FromCard {
        lane: u8,
    },
    Torn {
        lane: u8,
    },
    Gone {
        lane: u8,
    },
    ToHost {
        lane: u8,
    },
    FromHost {
        lane: u8,
    },
    NoReply {
        lane: u8,
    },
    End {
        lane: u8,
        number: u32,
        parts: EndParts,
    },
    EndLost {
        lane: u8,
        number: u32,
    },
    SettleCall {
        lane: u8,
    },
    SettleReply {
        lane: u8,
    },
    AuditPower {
        card: ArrayVec<u8, 16>,
        apps: ArrayVec<Shown, 4>,
    },
    AuditAsk {
        card: ArrayVec<u8, 16>,
    },
    AuditAnswer {
        card: ArrayVec<u8, 16>,
    },
}

impl Default for Head {
    fn default() -> Head {
        Head::Torn { lane: 0 }
    }
}

/// A line's head, and how many bytes are the line's.
#[derive(Drop, Default)]
pub(crate) struct LinePlace {
    pub head: Head,
    pub count: u16,
}
