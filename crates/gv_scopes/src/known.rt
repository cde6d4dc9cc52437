use gv_base::Name;

/// The names that the rules speak of.
#[derive(Clone, Copy, Debug, PartialEq, Eq)]
pub struct Known {
    /// `it`
    pub it: Name,
    /// The script's class.
    pub script: Name,
    /// `owner`
    pub owner: Name,
    /// `delegate`
    pub delegate: Name,
    /// `resolveStrategy`
    pub resolve_strategy: Name,
}
