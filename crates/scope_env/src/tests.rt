//! Scopes of a small program.

use crate::{DeclareFault, Scopes};
use std::test::Fail;

#[test]
fn a_name_twice_in_one_scope(rt: HostRuntime) -> Result<(), Fail> {
    let mut scopes = Scopes::new(rt.alloc())?;
    scopes.declare(3, 'a')?;
    assert!(rt; matches!(scopes.declare(3, 'b'), Err(DeclareFault::Redeclared('b'))));
    assert_eq!(rt; scopes.find(3).copied(), Some('a'));
    Ok(())
}

#[test]
fn a_hidden_name_comes_back(rt: HostRuntime) -> Result<(), Fail> {
    let mut scopes = Scopes::new(rt.alloc())?;
    scopes.declare(3, 'a')?;
    scopes.open()?;
    assert_eq!(rt; scopes.find(3).copied(), Some('a'));
    scopes.declare(3, 'b')?;
    scopes.declare(4, 'c')?;
    assert_eq!(rt; scopes.find(3).copied(), Some('b'));
    scopes.close();
    assert_eq!(rt; scopes.find(3).copied(), Some('a'));
    assert_eq!(rt; scopes.find(4).copied(), None);
    Ok(())
}
