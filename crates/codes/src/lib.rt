// The codes of the sheet and what they stand for. A code that stands for nothing is read as the
// last one; a sheet that has such a code is refused.
#![tactic(auto)]

ghost use Rattle.std.specs.Prelude.{◌≡◌};
ghost use Rattle.codes.specs.Codes.{node_code, link_code, status_code, node_kind_of, link_kind_of, status_of};

#[derive(Clone, Copy, Debug, PartialEq, Eq)]
pub enum NodeKind {
    Junction,
    Reservoir,
    Tank,
}

#[derive(Clone, Copy, Debug, PartialEq, Eq)]
pub enum LinkKind {
    Pipe,
    Prv,
    Psv,
    Pbv,
    Fcv,
    Tcv,
    Pcv,
}

#[derive(Clone, Copy, Debug, PartialEq, Eq)]
pub enum Status {
    Closed,
    Open,
    Active,
    TempClosed,
    FixedClosed,
    FixedOpen,
    XPressure,
    Xhead,
}

impl From<u8> for NodeKind {
    ghost from_gives = { λ code kind. kind ≡ node_kind_of code };

    #[tactic(auto, unfolding(crate::specs::Codes::node_kind_of))]
    fn from(code: u8) -> NodeKind {
        match code {
            0 => NodeKind::Junction,
            1 => NodeKind::Reservoir,
            _ => NodeKind::Tank,
        }
    }
}

impl From<NodeKind> for u8 {
    ghost from_gives = { λ kind code. code ≡ node_code kind };

    #[tactic(auto, unfolding(crate::specs::Codes::node_code))]
    fn from(kind: NodeKind) -> u8 {
        match kind {
            NodeKind::Junction => 0,
            NodeKind::Reservoir => 1,
            NodeKind::Tank => 2,
        }
    }
}

impl From<u8> for LinkKind {
    ghost from_gives = { λ code kind. kind ≡ link_kind_of code };

    #[tactic(auto, unfolding(crate::specs::Codes::link_kind_of))]
    fn from(code: u8) -> LinkKind {
        match code {
            0 => LinkKind::Pipe,
            1 => LinkKind::Prv,
            2 => LinkKind::Psv,
            3 => LinkKind::Pbv,
            4 => LinkKind::Fcv,
            5 => LinkKind::Tcv,
            _ => LinkKind::Pcv,
        }
    }
}

impl From<LinkKind> for u8 {
    ghost from_gives = { λ kind code. code ≡ link_code kind };

    #[tactic(auto, unfolding(crate::specs::Codes::link_code))]
    fn from(kind: LinkKind) -> u8 {
        match kind {
            LinkKind::Pipe => 0,
            LinkKind::Prv => 1,
            LinkKind::Psv => 2,
            LinkKind::Pbv => 3,
            LinkKind::Fcv => 4,
            LinkKind::Tcv => 5,
            LinkKind::Pcv => 6,
        }
    }
}

impl From<u8> for Status {
    ghost from_gives = { λ code status. status ≡ status_of code };

    #[tactic(auto, unfolding(crate::specs::Codes::status_of))]
    fn from(code: u8) -> Status {
        match code {
            0 => Status::Closed,
            1 => Status::Open,
            2 => Status::Active,
            3 => Status::TempClosed,
            4 => Status::FixedClosed,
            5 => Status::FixedOpen,
            6 => Status::XPressure,
            _ => Status::Xhead,
        }
    }
}

impl From<Status> for u8 {
    ghost from_gives = { λ status code. code ≡ status_code status };

    #[tactic(auto, unfolding(crate::specs::Codes::status_code))]
    fn from(status: Status) -> u8 {
        match status {
            Status::Closed => 0,
            Status::Open => 1,
            Status::Active => 2,
            Status::TempClosed => 3,
            Status::FixedClosed => 4,
            Status::FixedOpen => 5,
            Status::XPressure => 6,
            Status::Xhead => 7,
        }
    }
}
