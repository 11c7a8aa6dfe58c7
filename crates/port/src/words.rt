// A port's states and inputs in the words of document 01.

use crate::{ChangeBit, ClearableFeature, Input, LineEvent, PortState, SettableFeature, Speed};
use std::fmt;

impl fmt::Display for Speed {
    fn fmt<W: fmt::Write>(&self, f: &mut fmt::Formatter<W>) -> fmt::Result {
        match self {
            Speed::Low => write!(f, "low"),
            Speed::Full => write!(f, "full"),
            Speed::High => write!(f, "high"),
        }
    }
}

impl fmt::Display for PortState {
    fn fmt<W: fmt::Write>(&self, f: &mut fmt::Formatter<W>) -> fmt::Result {
        match self {
            PortState::NotConfigured => write!(f, "Not Configured"),
            PortState::PoweredOff => write!(f, "Powered-off"),
            PortState::Disconnected => write!(f, "Disconnected"),
            PortState::Disabled(speed) => write!(f, "Disabled {speed}"),
            PortState::Resetting(speed, ticks) => write!(f, "Resetting {speed} {ticks}"),
            PortState::Enabled(speed) => write!(f, "Enabled {speed}"),
            PortState::Suspended(speed) => write!(f, "Suspended {speed}"),
            PortState::Resuming(speed, ticks) => write!(f, "Resuming {speed} {ticks}"),
        }
    }
}

impl fmt::Display for ChangeBit {
    fn fmt<W: fmt::Write>(&self, f: &mut fmt::Formatter<W>) -> fmt::Result {
        match self {
            ChangeBit::Connection => write!(f, "C_PORT_CONNECTION"),
            ChangeBit::Enable => write!(f, "C_PORT_ENABLE"),
            ChangeBit::Suspend => write!(f, "C_PORT_SUSPEND"),
            ChangeBit::OverCurrent => write!(f, "C_PORT_OVER_CURRENT"),
            ChangeBit::Reset => write!(f, "C_PORT_RESET"),
        }
    }
}

impl fmt::Display for LineEvent {
    fn fmt<W: fmt::Write>(&self, f: &mut fmt::Formatter<W>) -> fmt::Result {
        match self {
            LineEvent::AttachLow => write!(f, "attach low"),
            LineEvent::AttachFull => write!(f, "attach full"),
            LineEvent::Detach => write!(f, "detach"),
            LineEvent::Chirp => write!(f, "chirp"),
            LineEvent::Wake => write!(f, "wake"),
            LineEvent::PortError => write!(f, "port error"),
            LineEvent::OverCurrentOn => write!(f, "over-current on"),
            LineEvent::OverCurrentOff => write!(f, "over-current off"),
        }
    }
}

impl fmt::Display for SettableFeature {
    fn fmt<W: fmt::Write>(&self, f: &mut fmt::Formatter<W>) -> fmt::Result {
        match self {
            SettableFeature::Suspend => write!(f, "PORT_SUSPEND"),
            SettableFeature::Reset => write!(f, "PORT_RESET"),
            SettableFeature::Power => write!(f, "PORT_POWER"),
        }
    }
}

impl fmt::Display for ClearableFeature {
    fn fmt<W: fmt::Write>(&self, f: &mut fmt::Formatter<W>) -> fmt::Result {
        match self {
            ClearableFeature::Enable => write!(f, "PORT_ENABLE"),
            ClearableFeature::Suspend => write!(f, "PORT_SUSPEND"),
            ClearableFeature::Power => write!(f, "PORT_POWER"),
            ClearableFeature::Change(bit) => write!(f, "{bit}"),
        }
    }
}

impl fmt::Display for Input {
    fn fmt<W: fmt::Write>(&self, f: &mut fmt::Formatter<W>) -> fmt::Result {
        match self {
            Input::Event(event) => write!(f, "{event}"),
            Input::Tick => write!(f, "tick"),
            Input::SetFeature(feature) => write!(f, "set {feature}"),
            Input::ClearFeature(feature) => write!(f, "clear {feature}"),
            Input::Configure => write!(f, "SetConfiguration 1"),
            Input::Unconfigure => write!(f, "SetConfiguration 0"),
            Input::BusReset => write!(f, "bus reset"),
        }
    }
}
