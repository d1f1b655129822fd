//! Which steps the stack can do today: those of the device, MNP and ARP.
ghost use Rattle.std.specs.Prelude.{◌≡◌};
ghost use Rattle.std.specs.List.{list_all};
ghost use Rattle.script_run.specs.Scope.{is_built, layer_of};

use efi_base::Proto;
use efi_stack::Layer;
use script_text::Step;

/// The driver of a protocol, where it is built.
pub(crate) fn layer_of(proto: Proto) -> Option<Layer>
    ensures { result ≡ layer_of proto }
{
    match proto {
        Proto::Mnp => Some(Layer::Mnp),
        Proto::Arp => Some(Layer::Arp),
        _ => None,
    }
}

fn is_built(step: &Step) -> bool
    ensures { result ≡ is_built step.now }
{
    match step {
        Step::Create(proto) => layer_of(*proto).is_some(),
        Step::Address(_) => false,
        Step::AddRoute(_) => false,
        Step::RemoveRoute(_) => false,
        Step::DnsCache(_, _, _, _) => false,
        _ => true,
    }
}

/// Whether the stack can do all of these steps.
pub fn are_built(steps: &[Step]) -> bool
    ensures { result ≡ list_all is_built steps.now }
{
    steps.iter().all(|step| is_built(step))
}
