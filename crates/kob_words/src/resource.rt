//! The words for kinds of resource.

ghost use Rattle.std.specs.Prelude.{◌≡◌};
ghost use Rattle.std.specs.Option.{option_copied};
ghost use Rattle.kob_words.specs.Words.{first_named, resource_name, resource_named};

use kob_names::ResourceKind;

/// The name of a kind of resource.
pub fn resource_name(resource: ResourceKind) -> &'static str
    ensures { result.now ≡ resource_name resource }
{
    match resource {
        ResourceKind::Topic => "Topic",
        ResourceKind::Group => "Group",
        ResourceKind::Cluster => "Cluster",
        ResourceKind::TransactionalId => "TransactionalId",
    }
}

/// The kind of resource of that name, in any ASCII case.
pub fn resource_named(name: &[u8]) -> Option<ResourceKind>
    ensures { result ≡ resource_named name.now }
{
    let resources = [
        ResourceKind::Topic,
        ResourceKind::Group,
        ResourceKind::Cluster,
        ResourceKind::TransactionalId,
    ];
    resource_among(&resources, name).copied()
}

fn resource_among<'a>(resources: &'a [ResourceKind], name: &[u8]) -> Option<&'a ResourceKind>
    ensures { option_copied result ≡ first_named resource_name resources.now name.now }
{
    resources.iter().find(|resource| name.eq_ignore_ascii_case(resource_name(
        **resource,
    ).as_bytes()))
}
