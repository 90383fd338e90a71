//! The address at which a server listens.

ghost use Rattle.std.specs.Prelude.{IfOk, OnErr};
ghost use Rattle.options.specs.Asked.{AddressFits, IsAddressGiven};
ghost use Rattle.options.specs.Numbers.{given_text};

use crate::number::Misfit;
use std::net::{IpAddr, Ipv4Addr};

/// The address that is given, and the loopback where none is.
pub(crate) fn address(given: Option<&str>) -> Result<IpAddr, Misfit>
    ensures address { IfOk result (IsAddressGiven (given_text given.entry)) }
    ensures misfit { OnErr result (¬ (AddressFits (given_text given.entry))) }
{
    let Some(text) = given else {
        return Ok(IpAddr::V4(Ipv4Addr::new(127, 0, 0, 1)));
    };
    match text.parse::<IpAddr>() {
        Ok(address) => Ok(address),
        Err(_) => Err(Misfit::Address),
    }
}
