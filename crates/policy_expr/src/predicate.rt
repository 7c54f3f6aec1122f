#![tactic(auto, unfolding(crate::specs::Predicate::ia_at, crate::specs::Predicate::interfaces_at, crate::specs::Predicate::predicate_at))]

ghost use Rattle.std.specs.Prelude.{◌≡◌, IfOk, Ok};
ghost use Rattle.policy_expr.specs.declared.hop.HopPred.{HopPred};
ghost use Rattle.policy_expr.specs.Predicate.{SpellsPredicate, interface_number_at, interfaces_at, one_interface, ia_at, predicate_at, two_interfaces};

use crate::fault::PolicyFault;
use crate::hop::{HopPred, Interfaces};
use isd_as::{AsNumber, IfId, Isd, IsdAs};
use separators::sign::cut;

impl HopPred {
    /// The predicate of a text: `ISD`, `ISD-AS`, `ISD-AS#IF` or `ISD-AS#IN,OUT`. ISD and AS are
    /// read as in addresses; an interface is decimal digits up to 65535. `#0` and `#0,0` match any
    /// interfaces.
    ///
    /// Any other text is [`PolicyFault::BadPredicate`].
    pub fn parse(text: &str) -> Result<HopPred, PolicyFault>
        // The text is a spelling of the predicate that is returned.
        ensures found { IfOk result (λ pred. SpellsPredicate text.now pred) }
        // Each predicate of which the text is a spelling is returned.
        ensures only { (pred : HopPred) → SpellsPredicate text.now pred → result ≡ Ok pred }
        // The exact result, with its refusal.
        ensures exact { result ≡ predicate_at text.now }
    {
        read_predicate(text)
    }
}

/// Reads a predicate.
fn read_predicate(text: &str) -> Result<HopPred, PolicyFault>
    ensures { result ≡ predicate_at text.now }
{
    match cut(text, '#') {
        None => Ok(HopPred {
            ia: read_ia(text)?,
            interfaces: Interfaces::Any,
        }),
        Some((address, interfaces)) => {
            let ia = IsdAs::parse(address)?;
            let interfaces = read_interfaces(interfaces)?;
            Ok(HopPred { ia, interfaces })
        }
    }
}

/// Reads an address, or an ISD alone.
fn read_ia(text: &str) -> Result<IsdAs, PolicyFault>
    ensures { result ≡ ia_at text.now }
{
    match cut(text, '-') {
        None => Ok(IsdAs::new(Isd::parse(text)?, any_as())),
        Some(_) => Ok(IsdAs::parse(text)?),
    }
}

/// The wildcard for the AS number.
fn any_as() -> AsNumber
    ensures { result ≡ 0 }
{
    AsNumber::new(0).unwrap()
}

/// Reads one or two interfaces.
fn read_interfaces(text: &str) -> Result<Interfaces, PolicyFault>
    ensures { result ≡ interfaces_at text.now }
{
    match cut(text, ',') {
        None => {
            let interface = read_interface(text)?;
            Ok(of_one(interface))
        }
        Some((ingress, egress)) => {
            let ingress = read_interface(ingress)?;
            let egress = read_interface(egress)?;
            Ok(of_two(ingress, egress))
        }
    }
}

/// One interface; 0 is the wildcard.
fn of_one(interface: IfId) -> Interfaces
    ensures { result ≡ one_interface interface }
{
    if interface.is_none() {
        Interfaces::Any
    } else {
        Interfaces::Either(interface)
    }
}

/// Two interfaces; 0 and 0 are the wildcard.
fn of_two(ingress: IfId, egress: IfId) -> Interfaces
    ensures { result ≡ two_interfaces ingress egress }
{
    if ingress.is_none() && egress.is_none() {
        Interfaces::Any
    } else {
        Interfaces::Both(ingress, egress)
    }
}

/// Reads an interface: decimal digits up to 65535, as for an ISD.
fn read_interface(text: &str) -> Result<IfId, PolicyFault>
    ensures { result ≡ interface_number_at text.now }
{
    let number = Isd::parse(text)?;
    Ok(IfId(number.number()))
}
