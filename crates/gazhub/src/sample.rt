//! The sample register.

/// The register of `play`, in TOML.
pub const SAMPLE: &str = r#"[[custodian]]
code = 1001
name = "Upper County"
uprn = [[1, 99999], [999999999000, 999999999999]]
usrn = [[100, 199], [99999999, 99999999]]

[[custodian]]
code = 1002
name = "Lower District"
uprn = [[100000, 199999]]
usrn = [[200, 299]]

[[custodian]]
code = 1003
name = "Bay District"
uprn = [[200000, 299999]]
usrn = [[300, 399]]
"#;
