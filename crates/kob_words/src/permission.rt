//! The words for permissions.

ghost use Rattle.std.specs.Prelude.{◌≡◌};
ghost use Rattle.kob_words.specs.Words.{permission_name, permission_named};

use kob_names::Permission;

/// The name of a permission, in capitals as `kafka-acls` prints it.
pub fn permission_name(permission: Permission) -> &'static str
    ensures { result.now ≡ permission_name permission }
{
    match permission {
        Permission::Allow => "ALLOW",
        Permission::Deny => "DENY",
    }
}

/// The permission of that name, in any ASCII case.
pub fn permission_named(name: &[u8]) -> Option<Permission>
    ensures { result ≡ permission_named name.now }
{
    let permissions = [Permission::Allow, Permission::Deny];
    permissions
        .iter()
        .find(|permission| name.eq_ignore_ascii_case(permission_name(**permission).as_bytes()))
        .copied()
}
