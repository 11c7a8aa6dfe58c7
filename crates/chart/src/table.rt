// The chart of one port: 48 lines of 23 cells, of which every one can be looked at. A line is a situation: a state with its speed, whether its timer ends
// at the next tick, and the over-current level. A column is an input, in this order:
//   attach low, attach full, detach, chirp, wake, port error, over-current on, over-current off, tick,
//   set PORT_SUSPEND, PORT_RESET, PORT_POWER, clear PORT_ENABLE, PORT_SUSPEND, PORT_POWER,
//   clear C_PORT_CONNECTION, C_PORT_ENABLE, C_PORT_SUSPEND, C_PORT_OVER_CURRENT, C_PORT_RESET, SetConfiguration 0, 1, bus reset.
// A cell is 0x state _ speed _ level _ change bits set _ change bits cleared _ number answered:
//   state: 0 Not Configured, 1 Powered-off, 2 Disconnected, 3 Disabled, 4 Resetting, 5 Enabled, 6 Suspended, 7 Resuming;
//   speed: 0 low, 1 full, 2 high, and 0 in a state without one; change bits as in the change byte of GetPortStatus.
// The program `port_chart` prints it as a table.
pub const CHART: [u32; 1104] = [
    0x0_0_0_00_00_8, // Not Configured | attach low
    0x0_0_0_00_00_8, // Not Configured | attach full
    0x0_0_0_00_00_8, // Not Configured | detach
    0x0_0_0_00_00_8, // Not Configured | chirp
    0x0_0_0_00_00_8, // Not Configured | wake
    0x0_0_0_00_00_8, // Not Configured | port error
    0x0_0_0_00_00_8, // Not Configured | over-current on
    0x0_0_0_00_00_8, // Not Configured | over-current off
    0x0_0_0_00_00_0, // Not Configured | tick
    0x0_0_0_00_00_2, // Not Configured | set PORT_SUSPEND
    0x0_0_0_00_00_2, // Not Configured | set PORT_RESET
    0x0_0_0_00_00_2, // Not Configured | set PORT_POWER
    0x0_0_0_00_00_2, // Not Configured | clear PORT_ENABLE
    0x0_0_0_00_00_2, // Not Configured | clear PORT_SUSPEND
    0x0_0_0_00_00_2, // Not Configured | clear PORT_POWER
    0x0_0_0_00_00_2, // Not Configured | clear C_PORT_CONNECTION
    0x0_0_0_00_00_2, // Not Configured | clear C_PORT_ENABLE
    0x0_0_0_00_00_2, // Not Configured | clear C_PORT_SUSPEND
    0x0_0_0_00_00_2, // Not Configured | clear C_PORT_OVER_CURRENT
    0x0_0_0_00_00_2, // Not Configured | clear C_PORT_RESET
    0x0_0_0_00_00_0, // Not Configured | SetConfiguration 0
    0x1_0_0_00_00_0, // Not Configured | SetConfiguration 1
    0x0_0_0_00_1f_0, // Not Configured | bus reset
    0x1_0_0_00_00_8, // Powered-off | attach low
    0x1_0_0_00_00_8, // Powered-off | attach full
    0x1_0_0_00_00_8, // Powered-off | detach
    0x1_0_0_00_00_8, // Powered-off | chirp
    0x1_0_0_00_00_8, // Powered-off | wake
    0x1_0_0_00_00_8, // Powered-off | port error
    0x1_0_1_08_00_0, // Powered-off | over-current on
    0x1_0_0_00_00_0, // Powered-off | over-current off
    0x1_0_0_00_00_0, // Powered-off | tick
    0x1_0_0_00_00_0, // Powered-off | set PORT_SUSPEND
    0x1_0_0_00_00_0, // Powered-off | set PORT_RESET
    0x2_0_0_00_00_0, // Powered-off | set PORT_POWER
    0x1_0_0_00_00_0, // Powered-off | clear PORT_ENABLE
    0x1_0_0_00_00_0, // Powered-off | clear PORT_SUSPEND
    0x1_0_0_00_00_0, // Powered-off | clear PORT_POWER
    0x1_0_0_00_01_0, // Powered-off | clear C_PORT_CONNECTION
    0x1_0_0_00_02_0, // Powered-off | clear C_PORT_ENABLE
    0x1_0_0_00_04_0, // Powered-off | clear C_PORT_SUSPEND
    0x1_0_0_00_08_0, // Powered-off | clear C_PORT_OVER_CURRENT
    0x1_0_0_00_10_0, // Powered-off | clear C_PORT_RESET
    0x0_0_0_00_00_0, // Powered-off | SetConfiguration 0
    0x1_0_0_00_00_0, // Powered-off | SetConfiguration 1
    0x0_0_0_00_1f_0, // Powered-off | bus reset
    0x3_0_0_01_00_0, // Disconnected | attach low
    0x3_1_0_01_00_0, // Disconnected | attach full
    0x2_0_0_00_00_8, // Disconnected | detach
    0x2_0_0_00_00_8, // Disconnected | chirp
    0x2_0_0_00_00_8, // Disconnected | wake
    0x2_0_0_00_00_8, // Disconnected | port error
    0x1_0_1_08_00_0, // Disconnected | over-current on
    0x2_0_0_00_00_0, // Disconnected | over-current off
    0x2_0_0_00_00_0, // Disconnected | tick
    0x2_0_0_00_00_0, // Disconnected | set PORT_SUSPEND
    0x2_0_0_00_00_0, // Disconnected | set PORT_RESET
    0x2_0_0_00_00_0, // Disconnected | set PORT_POWER
    0x2_0_0_00_00_0, // Disconnected | clear PORT_ENABLE
    0x2_0_0_00_00_0, // Disconnected | clear PORT_SUSPEND
    0x1_0_0_00_00_0, // Disconnected | clear PORT_POWER
    0x2_0_0_00_01_0, // Disconnected | clear C_PORT_CONNECTION
    0x2_0_0_00_02_0, // Disconnected | clear C_PORT_ENABLE
    0x2_0_0_00_04_0, // Disconnected | clear C_PORT_SUSPEND
    0x2_0_0_00_08_0, // Disconnected | clear C_PORT_OVER_CURRENT
    0x2_0_0_00_10_0, // Disconnected | clear C_PORT_RESET
    0x0_0_0_00_00_0, // Disconnected | SetConfiguration 0
    0x1_0_0_00_00_0, // Disconnected | SetConfiguration 1
    0x0_0_0_00_1f_0, // Disconnected | bus reset
    0x3_0_0_00_00_8, // Disabled low | attach low
    0x3_0_0_00_00_8, // Disabled low | attach full
    0x2_0_0_01_00_0, // Disabled low | detach
    0x3_0_0_00_00_8, // Disabled low | chirp
    0x3_0_0_00_00_8, // Disabled low | wake
    0x3_0_0_00_00_8, // Disabled low | port error
    0x1_0_1_08_00_0, // Disabled low | over-current on
    0x3_0_0_00_00_0, // Disabled low | over-current off
    0x3_0_0_00_00_0, // Disabled low | tick
    0x3_0_0_00_00_0, // Disabled low | set PORT_SUSPEND
    0x4_0_0_00_00_0, // Disabled low | set PORT_RESET
    0x3_0_0_00_00_0, // Disabled low | set PORT_POWER
    0x3_0_0_00_00_0, // Disabled low | clear PORT_ENABLE
    0x3_0_0_00_00_0, // Disabled low | clear PORT_SUSPEND
    0x1_0_0_00_00_0, // Disabled low | clear PORT_POWER
    0x3_0_0_00_01_0, // Disabled low | clear C_PORT_CONNECTION
    0x3_0_0_00_02_0, // Disabled low | clear C_PORT_ENABLE
    0x3_0_0_00_04_0, // Disabled low | clear C_PORT_SUSPEND
    0x3_0_0_00_08_0, // Disabled low | clear C_PORT_OVER_CURRENT
    0x3_0_0_00_10_0, // Disabled low | clear C_PORT_RESET
    0x0_0_0_00_00_0, // Disabled low | SetConfiguration 0
    0x1_0_0_00_00_0, // Disabled low | SetConfiguration 1
    0x0_0_0_00_1f_0, // Disabled low | bus reset
    0x3_1_0_00_00_8, // Disabled full | attach low
    0x3_1_0_00_00_8, // Disabled full | attach full
    0x2_0_0_01_00_0, // Disabled full | detach
    0x3_1_0_00_00_8, // Disabled full | chirp
    0x3_1_0_00_00_8, // Disabled full | wake
    0x3_1_0_00_00_8, // Disabled full | port error
    0x1_0_1_08_00_0, // Disabled full | over-current on
    0x3_1_0_00_00_0, // Disabled full | over-current off
    0x3_1_0_00_00_0, // Disabled full | tick
    0x3_1_0_00_00_0, // Disabled full | set PORT_SUSPEND
    0x4_1_0_00_00_0, // Disabled full | set PORT_RESET
    0x3_1_0_00_00_0, // Disabled full | set PORT_POWER
    0x3_1_0_00_00_0, // Disabled full | clear PORT_ENABLE
    0x3_1_0_00_00_0, // Disabled full | clear PORT_SUSPEND
    0x1_0_0_00_00_0, // Disabled full | clear PORT_POWER
    0x3_1_0_00_01_0, // Disabled full | clear C_PORT_CONNECTION
    0x3_1_0_00_02_0, // Disabled full | clear C_PORT_ENABLE
    0x3_1_0_00_04_0, // Disabled full | clear C_PORT_SUSPEND
    0x3_1_0_00_08_0, // Disabled full | clear C_PORT_OVER_CURRENT
    0x3_1_0_00_10_0, // Disabled full | clear C_PORT_RESET
    0x0_0_0_00_00_0, // Disabled full | SetConfiguration 0
    0x1_0_0_00_00_0, // Disabled full | SetConfiguration 1
    0x0_0_0_00_1f_0, // Disabled full | bus reset
    0x3_2_0_00_00_8, // Disabled high | attach low
    0x3_2_0_00_00_8, // Disabled high | attach full
    0x2_0_0_01_00_0, // Disabled high | detach
    0x3_2_0_00_00_8, // Disabled high | chirp
    0x3_2_0_00_00_8, // Disabled high | wake
    0x3_2_0_00_00_8, // Disabled high | port error
    0x1_0_1_08_00_0, // Disabled high | over-current on
    0x3_2_0_00_00_0, // Disabled high | over-current off
    0x3_2_0_00_00_0, // Disabled high | tick
    0x3_2_0_00_00_0, // Disabled high | set PORT_SUSPEND
    0x4_1_0_00_00_0, // Disabled high | set PORT_RESET
    0x3_2_0_00_00_0, // Disabled high | set PORT_POWER
    0x3_2_0_00_00_0, // Disabled high | clear PORT_ENABLE
    0x3_2_0_00_00_0, // Disabled high | clear PORT_SUSPEND
    0x1_0_0_00_00_0, // Disabled high | clear PORT_POWER
    0x3_2_0_00_01_0, // Disabled high | clear C_PORT_CONNECTION
    0x3_2_0_00_02_0, // Disabled high | clear C_PORT_ENABLE
    0x3_2_0_00_04_0, // Disabled high | clear C_PORT_SUSPEND
    0x3_2_0_00_08_0, // Disabled high | clear C_PORT_OVER_CURRENT
    0x3_2_0_00_10_0, // Disabled high | clear C_PORT_RESET
    0x0_0_0_00_00_0, // Disabled high | SetConfiguration 0
    0x1_0_0_00_00_0, // Disabled high | SetConfiguration 1
    0x0_0_0_00_1f_0, // Disabled high | bus reset
    0x4_0_0_00_00_8, // Resetting low, timer runs | attach low
    0x4_0_0_00_00_8, // Resetting low, timer runs | attach full
    0x4_0_0_00_00_8, // Resetting low, timer runs | detach
    0x4_0_0_00_00_8, // Resetting low, timer runs | chirp
    0x4_0_0_00_00_8, // Resetting low, timer runs | wake
    0x4_0_0_00_00_8, // Resetting low, timer runs | port error
    0x1_0_1_08_00_0, // Resetting low, timer runs | over-current on
    0x4_0_0_00_00_0, // Resetting low, timer runs | over-current off
    0x4_0_0_00_00_0, // Resetting low, timer runs | tick
    0x4_0_0_00_00_0, // Resetting low, timer runs | set PORT_SUSPEND
    0x4_0_0_00_00_0, // Resetting low, timer runs | set PORT_RESET
    0x4_0_0_00_00_0, // Resetting low, timer runs | set PORT_POWER
    0x3_0_0_00_00_0, // Resetting low, timer runs | clear PORT_ENABLE
    0x4_0_0_00_00_0, // Resetting low, timer runs | clear PORT_SUSPEND
    0x1_0_0_00_00_0, // Resetting low, timer runs | clear PORT_POWER
    0x4_0_0_00_01_0, // Resetting low, timer runs | clear C_PORT_CONNECTION
    0x4_0_0_00_02_0, // Resetting low, timer runs | clear C_PORT_ENABLE
    0x4_0_0_00_04_0, // Resetting low, timer runs | clear C_PORT_SUSPEND
    0x4_0_0_00_08_0, // Resetting low, timer runs | clear C_PORT_OVER_CURRENT
    0x4_0_0_00_10_0, // Resetting low, timer runs | clear C_PORT_RESET
    0x0_0_0_00_00_0, // Resetting low, timer runs | SetConfiguration 0
    0x1_0_0_00_00_0, // Resetting low, timer runs | SetConfiguration 1
    0x0_0_0_00_1f_0, // Resetting low, timer runs | bus reset
    0x4_0_0_00_00_8, // Resetting low, timer ends | attach low
    0x4_0_0_00_00_8, // Resetting low, timer ends | attach full
    0x4_0_0_00_00_8, // Resetting low, timer ends | detach
    0x4_0_0_00_00_8, // Resetting low, timer ends | chirp
    0x4_0_0_00_00_8, // Resetting low, timer ends | wake
    0x4_0_0_00_00_8, // Resetting low, timer ends | port error
    0x1_0_1_08_00_0, // Resetting low, timer ends | over-current on
    0x4_0_0_00_00_0, // Resetting low, timer ends | over-current off
    0x5_0_0_10_00_0, // Resetting low, timer ends | tick
    0x4_0_0_00_00_0, // Resetting low, timer ends | set PORT_SUSPEND
    0x4_0_0_00_00_0, // Resetting low, timer ends | set PORT_RESET
    0x4_0_0_00_00_0, // Resetting low, timer ends | set PORT_POWER
    0x3_0_0_00_00_0, // Resetting low, timer ends | clear PORT_ENABLE
    0x4_0_0_00_00_0, // Resetting low, timer ends | clear PORT_SUSPEND
    0x1_0_0_00_00_0, // Resetting low, timer ends | clear PORT_POWER
    0x4_0_0_00_01_0, // Resetting low, timer ends | clear C_PORT_CONNECTION
    0x4_0_0_00_02_0, // Resetting low, timer ends | clear C_PORT_ENABLE
    0x4_0_0_00_04_0, // Resetting low, timer ends | clear C_PORT_SUSPEND
    0x4_0_0_00_08_0, // Resetting low, timer ends | clear C_PORT_OVER_CURRENT
    0x4_0_0_00_10_0, // Resetting low, timer ends | clear C_PORT_RESET
    0x0_0_0_00_00_0, // Resetting low, timer ends | SetConfiguration 0
    0x1_0_0_00_00_0, // Resetting low, timer ends | SetConfiguration 1
    0x0_0_0_00_1f_0, // Resetting low, timer ends | bus reset
    0x4_1_0_00_00_8, // Resetting full, timer runs | attach low
    0x4_1_0_00_00_8, // Resetting full, timer runs | attach full
    0x4_1_0_00_00_8, // Resetting full, timer runs | detach
    0x4_2_0_00_00_0, // Resetting full, timer runs | chirp
    0x4_1_0_00_00_8, // Resetting full, timer runs | wake
    0x4_1_0_00_00_8, // Resetting full, timer runs | port error
    0x1_0_1_08_00_0, // Resetting full, timer runs | over-current on
    0x4_1_0_00_00_0, // Resetting full, timer runs | over-current off
    0x4_1_0_00_00_0, // Resetting full, timer runs | tick
    0x4_1_0_00_00_0, // Resetting full, timer runs | set PORT_SUSPEND
    0x4_1_0_00_00_0, // Resetting full, timer runs | set PORT_RESET
    0x4_1_0_00_00_0, // Resetting full, timer runs | set PORT_POWER
    0x3_1_0_00_00_0, // Resetting full, timer runs | clear PORT_ENABLE
    0x4_1_0_00_00_0, // Resetting full, timer runs | clear PORT_SUSPEND
    0x1_0_0_00_00_0, // Resetting full, timer runs | clear PORT_POWER
    0x4_1_0_00_01_0, // Resetting full, timer runs | clear C_PORT_CONNECTION
    0x4_1_0_00_02_0, // Resetting full, timer runs | clear C_PORT_ENABLE
    0x4_1_0_00_04_0, // Resetting full, timer runs | clear C_PORT_SUSPEND
    0x4_1_0_00_08_0, // Resetting full, timer runs | clear C_PORT_OVER_CURRENT
    0x4_1_0_00_10_0, // Resetting full, timer runs | clear C_PORT_RESET
    0x0_0_0_00_00_0, // Resetting full, timer runs | SetConfiguration 0
    0x1_0_0_00_00_0, // Resetting full, timer runs | SetConfiguration 1
    0x0_0_0_00_1f_0, // Resetting full, timer runs | bus reset
    0x4_1_0_00_00_8, // Resetting full, timer ends | attach low
    0x4_1_0_00_00_8, // Resetting full, timer ends | attach full
    0x4_1_0_00_00_8, // Resetting full, timer ends | detach
    0x4_2_0_00_00_0, // Resetting full, timer ends | chirp
    0x4_1_0_00_00_8, // Resetting full, timer ends | wake
    0x4_1_0_00_00_8, // Resetting full, timer ends | port error
    0x1_0_1_08_00_0, // Resetting full, timer ends | over-current on
    0x4_1_0_00_00_0, // Resetting full, timer ends | over-current off
    0x5_1_0_10_00_0, // Resetting full, timer ends | tick
    0x4_1_0_00_00_0, // Resetting full, timer ends | set PORT_SUSPEND
    0x4_1_0_00_00_0, // Resetting full, timer ends | set PORT_RESET
    0x4_1_0_00_00_0, // Resetting full, timer ends | set PORT_POWER
    0x3_1_0_00_00_0, // Resetting full, timer ends | clear PORT_ENABLE
    0x4_1_0_00_00_0, // Resetting full, timer ends | clear PORT_SUSPEND
    0x1_0_0_00_00_0, // Resetting full, timer ends | clear PORT_POWER
    0x4_1_0_00_01_0, // Resetting full, timer ends | clear C_PORT_CONNECTION
    0x4_1_0_00_02_0, // Resetting full, timer ends | clear C_PORT_ENABLE
    0x4_1_0_00_04_0, // Resetting full, timer ends | clear C_PORT_SUSPEND
    0x4_1_0_00_08_0, // Resetting full, timer ends | clear C_PORT_OVER_CURRENT
    0x4_1_0_00_10_0, // Resetting full, timer ends | clear C_PORT_RESET
    0x0_0_0_00_00_0, // Resetting full, timer ends | SetConfiguration 0
    0x1_0_0_00_00_0, // Resetting full, timer ends | SetConfiguration 1
    0x0_0_0_00_1f_0, // Resetting full, timer ends | bus reset
    0x4_2_0_00_00_8, // Resetting high, timer runs | attach low
    0x4_2_0_00_00_8, // Resetting high, timer runs | attach full
    0x4_2_0_00_00_8, // Resetting high, timer runs | detach
    0x4_2_0_00_00_8, // Resetting high, timer runs | chirp
    0x4_2_0_00_00_8, // Resetting high, timer runs | wake
    0x4_2_0_00_00_8, // Resetting high, timer runs | port error
    0x1_0_1_08_00_0, // Resetting high, timer runs | over-current on
    0x4_2_0_00_00_0, // Resetting high, timer runs | over-current off
    0x4_2_0_00_00_0, // Resetting high, timer runs | tick
    0x4_2_0_00_00_0, // Resetting high, timer runs | set PORT_SUSPEND
    0x4_2_0_00_00_0, // Resetting high, timer runs | set PORT_RESET
    0x4_2_0_00_00_0, // Resetting high, timer runs | set PORT_POWER
    0x3_2_0_00_00_0, // Resetting high, timer runs | clear PORT_ENABLE
    0x4_2_0_00_00_0, // Resetting high, timer runs | clear PORT_SUSPEND
    0x1_0_0_00_00_0, // Resetting high, timer runs | clear PORT_POWER
    0x4_2_0_00_01_0, // Resetting high, timer runs | clear C_PORT_CONNECTION
    0x4_2_0_00_02_0, // Resetting high, timer runs | clear C_PORT_ENABLE
    0x4_2_0_00_04_0, // Resetting high, timer runs | clear C_PORT_SUSPEND
    0x4_2_0_00_08_0, // Resetting high, timer runs | clear C_PORT_OVER_CURRENT
    0x4_2_0_00_10_0, // Resetting high, timer runs | clear C_PORT_RESET
    0x0_0_0_00_00_0, // Resetting high, timer runs | SetConfiguration 0
    0x1_0_0_00_00_0, // Resetting high, timer runs | SetConfiguration 1
    0x0_0_0_00_1f_0, // Resetting high, timer runs | bus reset
    0x4_2_0_00_00_8, // Resetting high, timer ends | attach low
    0x4_2_0_00_00_8, // Resetting high, timer ends | attach full
    0x4_2_0_00_00_8, // Resetting high, timer ends | detach
    0x4_2_0_00_00_8, // Resetting high, timer ends | chirp
    0x4_2_0_00_00_8, // Resetting high, timer ends | wake
    0x4_2_0_00_00_8, // Resetting high, timer ends | port error
    0x1_0_1_08_00_0, // Resetting high, timer ends | over-current on
    0x4_2_0_00_00_0, // Resetting high, timer ends | over-current off
    0x5_2_0_10_00_0, // Resetting high, timer ends | tick
    0x4_2_0_00_00_0, // Resetting high, timer ends | set PORT_SUSPEND
    0x4_2_0_00_00_0, // Resetting high, timer ends | set PORT_RESET
    0x4_2_0_00_00_0, // Resetting high, timer ends | set PORT_POWER
    0x3_2_0_00_00_0, // Resetting high, timer ends | clear PORT_ENABLE
    0x4_2_0_00_00_0, // Resetting high, timer ends | clear PORT_SUSPEND
    0x1_0_0_00_00_0, // Resetting high, timer ends | clear PORT_POWER
    0x4_2_0_00_01_0, // Resetting high, timer ends | clear C_PORT_CONNECTION
    0x4_2_0_00_02_0, // Resetting high, timer ends | clear C_PORT_ENABLE
    0x4_2_0_00_04_0, // Resetting high, timer ends | clear C_PORT_SUSPEND
    0x4_2_0_00_08_0, // Resetting high, timer ends | clear C_PORT_OVER_CURRENT
    0x4_2_0_00_10_0, // Resetting high, timer ends | clear C_PORT_RESET
    0x0_0_0_00_00_0, // Resetting high, timer ends | SetConfiguration 0
    0x1_0_0_00_00_0, // Resetting high, timer ends | SetConfiguration 1
    0x0_0_0_00_1f_0, // Resetting high, timer ends | bus reset
    0x5_0_0_00_00_8, // Enabled low | attach low
    0x5_0_0_00_00_8, // Enabled low | attach full
    0x2_0_0_01_00_0, // Enabled low | detach
    0x5_0_0_00_00_8, // Enabled low | chirp
    0x5_0_0_00_00_8, // Enabled low | wake
    0x3_0_0_02_00_0, // Enabled low | port error
    0x1_0_1_08_00_0, // Enabled low | over-current on
    0x5_0_0_00_00_0, // Enabled low | over-current off
    0x5_0_0_00_00_0, // Enabled low | tick
    0x6_0_0_00_00_0, // Enabled low | set PORT_SUSPEND
    0x4_0_0_00_00_0, // Enabled low | set PORT_RESET
    0x5_0_0_00_00_0, // Enabled low | set PORT_POWER
    0x3_0_0_00_00_0, // Enabled low | clear PORT_ENABLE
    0x5_0_0_00_00_0, // Enabled low | clear PORT_SUSPEND
    0x1_0_0_00_00_0, // Enabled low | clear PORT_POWER
    0x5_0_0_00_01_0, // Enabled low | clear C_PORT_CONNECTION
    0x5_0_0_00_02_0, // Enabled low | clear C_PORT_ENABLE
    0x5_0_0_00_04_0, // Enabled low | clear C_PORT_SUSPEND
    0x5_0_0_00_08_0, // Enabled low | clear C_PORT_OVER_CURRENT
    0x5_0_0_00_10_0, // Enabled low | clear C_PORT_RESET
    0x0_0_0_00_00_0, // Enabled low | SetConfiguration 0
    0x1_0_0_00_00_0, // Enabled low | SetConfiguration 1
    0x0_0_0_00_1f_0, // Enabled low | bus reset
    0x5_1_0_00_00_8, // Enabled full | attach low
    0x5_1_0_00_00_8, // Enabled full | attach full
    0x2_0_0_01_00_0, // Enabled full | detach
    0x5_1_0_00_00_8, // Enabled full | chirp
    0x5_1_0_00_00_8, // Enabled full | wake
    0x3_1_0_02_00_0, // Enabled full | port error
    0x1_0_1_08_00_0, // Enabled full | over-current on
    0x5_1_0_00_00_0, // Enabled full | over-current off
    0x5_1_0_00_00_0, // Enabled full | tick
    0x6_1_0_00_00_0, // Enabled full | set PORT_SUSPEND
    0x4_1_0_00_00_0, // Enabled full | set PORT_RESET
    0x5_1_0_00_00_0, // Enabled full | set PORT_POWER
    0x3_1_0_00_00_0, // Enabled full | clear PORT_ENABLE
    0x5_1_0_00_00_0, // Enabled full | clear PORT_SUSPEND
    0x1_0_0_00_00_0, // Enabled full | clear PORT_POWER
    0x5_1_0_00_01_0, // Enabled full | clear C_PORT_CONNECTION
    0x5_1_0_00_02_0, // Enabled full | clear C_PORT_ENABLE
    0x5_1_0_00_04_0, // Enabled full | clear C_PORT_SUSPEND
    0x5_1_0_00_08_0, // Enabled full | clear C_PORT_OVER_CURRENT
    0x5_1_0_00_10_0, // Enabled full | clear C_PORT_RESET
    0x0_0_0_00_00_0, // Enabled full | SetConfiguration 0
    0x1_0_0_00_00_0, // Enabled full | SetConfiguration 1
    0x0_0_0_00_1f_0, // Enabled full | bus reset
    0x5_2_0_00_00_8, // Enabled high | attach low
    0x5_2_0_00_00_8, // Enabled high | attach full
    0x2_0_0_01_00_0, // Enabled high | detach
    0x5_2_0_00_00_8, // Enabled high | chirp
    0x5_2_0_00_00_8, // Enabled high | wake
    0x3_2_0_02_00_0, // Enabled high | port error
    0x1_0_1_08_00_0, // Enabled high | over-current on
    0x5_2_0_00_00_0, // Enabled high | over-current off
    0x5_2_0_00_00_0, // Enabled high | tick
    0x6_2_0_00_00_0, // Enabled high | set PORT_SUSPEND
    0x4_1_0_00_00_0, // Enabled high | set PORT_RESET
    0x5_2_0_00_00_0, // Enabled high | set PORT_POWER
    0x3_2_0_00_00_0, // Enabled high | clear PORT_ENABLE
    0x5_2_0_00_00_0, // Enabled high | clear PORT_SUSPEND
    0x1_0_0_00_00_0, // Enabled high | clear PORT_POWER
    0x5_2_0_00_01_0, // Enabled high | clear C_PORT_CONNECTION
    0x5_2_0_00_02_0, // Enabled high | clear C_PORT_ENABLE
    0x5_2_0_00_04_0, // Enabled high | clear C_PORT_SUSPEND
    0x5_2_0_00_08_0, // Enabled high | clear C_PORT_OVER_CURRENT
    0x5_2_0_00_10_0, // Enabled high | clear C_PORT_RESET
    0x0_0_0_00_00_0, // Enabled high | SetConfiguration 0
    0x1_0_0_00_00_0, // Enabled high | SetConfiguration 1
    0x0_0_0_00_1f_0, // Enabled high | bus reset
    0x6_0_0_00_00_8, // Suspended low | attach low
    0x6_0_0_00_00_8, // Suspended low | attach full
    0x2_0_0_01_00_0, // Suspended low | detach
    0x6_0_0_00_00_8, // Suspended low | chirp
    0x7_0_0_00_00_0, // Suspended low | wake
    0x6_0_0_00_00_8, // Suspended low | port error
    0x1_0_1_08_00_0, // Suspended low | over-current on
    0x6_0_0_00_00_0, // Suspended low | over-current off
    0x6_0_0_00_00_0, // Suspended low | tick
    0x6_0_0_00_00_0, // Suspended low | set PORT_SUSPEND
    0x4_0_0_00_00_0, // Suspended low | set PORT_RESET
    0x6_0_0_00_00_0, // Suspended low | set PORT_POWER
    0x3_0_0_00_00_0, // Suspended low | clear PORT_ENABLE
    0x7_0_0_00_00_0, // Suspended low | clear PORT_SUSPEND
    0x1_0_0_00_00_0, // Suspended low | clear PORT_POWER
    0x6_0_0_00_01_0, // Suspended low | clear C_PORT_CONNECTION
    0x6_0_0_00_02_0, // Suspended low | clear C_PORT_ENABLE
    0x6_0_0_00_04_0, // Suspended low | clear C_PORT_SUSPEND
    0x6_0_0_00_08_0, // Suspended low | clear C_PORT_OVER_CURRENT
    0x6_0_0_00_10_0, // Suspended low | clear C_PORT_RESET
    0x0_0_0_00_00_0, // Suspended low | SetConfiguration 0
    0x1_0_0_00_00_0, // Suspended low | SetConfiguration 1
    0x0_0_0_00_1f_0, // Suspended low | bus reset
    0x6_1_0_00_00_8, // Suspended full | attach low
    0x6_1_0_00_00_8, // Suspended full | attach full
    0x2_0_0_01_00_0, // Suspended full | detach
    0x6_1_0_00_00_8, // Suspended full | chirp
    0x7_1_0_00_00_0, // Suspended full | wake
    0x6_1_0_00_00_8, // Suspended full | port error
    0x1_0_1_08_00_0, // Suspended full | over-current on
    0x6_1_0_00_00_0, // Suspended full | over-current off
    0x6_1_0_00_00_0, // Suspended full | tick
    0x6_1_0_00_00_0, // Suspended full | set PORT_SUSPEND
    0x4_1_0_00_00_0, // Suspended full | set PORT_RESET
    0x6_1_0_00_00_0, // Suspended full | set PORT_POWER
    0x3_1_0_00_00_0, // Suspended full | clear PORT_ENABLE
    0x7_1_0_00_00_0, // Suspended full | clear PORT_SUSPEND
    0x1_0_0_00_00_0, // Suspended full | clear PORT_POWER
    0x6_1_0_00_01_0, // Suspended full | clear C_PORT_CONNECTION
    0x6_1_0_00_02_0, // Suspended full | clear C_PORT_ENABLE
    0x6_1_0_00_04_0, // Suspended full | clear C_PORT_SUSPEND
    0x6_1_0_00_08_0, // Suspended full | clear C_PORT_OVER_CURRENT
    0x6_1_0_00_10_0, // Suspended full | clear C_PORT_RESET
    0x0_0_0_00_00_0, // Suspended full | SetConfiguration 0
    0x1_0_0_00_00_0, // Suspended full | SetConfiguration 1
    0x0_0_0_00_1f_0, // Suspended full | bus reset
    0x6_2_0_00_00_8, // Suspended high | attach low
    0x6_2_0_00_00_8, // Suspended high | attach full
    0x2_0_0_01_00_0, // Suspended high | detach
    0x6_2_0_00_00_8, // Suspended high | chirp
    0x7_2_0_00_00_0, // Suspended high | wake
    0x6_2_0_00_00_8, // Suspended high | port error
    0x1_0_1_08_00_0, // Suspended high | over-current on
    0x6_2_0_00_00_0, // Suspended high | over-current off
    0x6_2_0_00_00_0, // Suspended high | tick
    0x6_2_0_00_00_0, // Suspended high | set PORT_SUSPEND
    0x4_1_0_00_00_0, // Suspended high | set PORT_RESET
    0x6_2_0_00_00_0, // Suspended high | set PORT_POWER
    0x3_2_0_00_00_0, // Suspended high | clear PORT_ENABLE
    0x7_2_0_00_00_0, // Suspended high | clear PORT_SUSPEND
    0x1_0_0_00_00_0, // Suspended high | clear PORT_POWER
    0x6_2_0_00_01_0, // Suspended high | clear C_PORT_CONNECTION
    0x6_2_0_00_02_0, // Suspended high | clear C_PORT_ENABLE
    0x6_2_0_00_04_0, // Suspended high | clear C_PORT_SUSPEND
    0x6_2_0_00_08_0, // Suspended high | clear C_PORT_OVER_CURRENT
    0x6_2_0_00_10_0, // Suspended high | clear C_PORT_RESET
    0x0_0_0_00_00_0, // Suspended high | SetConfiguration 0
    0x1_0_0_00_00_0, // Suspended high | SetConfiguration 1
    0x0_0_0_00_1f_0, // Suspended high | bus reset
    0x7_0_0_00_00_8, // Resuming low, timer runs | attach low
    0x7_0_0_00_00_8, // Resuming low, timer runs | attach full
    0x7_0_0_00_00_8, // Resuming low, timer runs | detach
    0x7_0_0_00_00_8, // Resuming low, timer runs | chirp
    0x7_0_0_00_00_8, // Resuming low, timer runs | wake
    0x7_0_0_00_00_8, // Resuming low, timer runs | port error
    0x1_0_1_08_00_0, // Resuming low, timer runs | over-current on
    0x7_0_0_00_00_0, // Resuming low, timer runs | over-current off
    0x7_0_0_00_00_0, // Resuming low, timer runs | tick
    0x7_0_0_00_00_0, // Resuming low, timer runs | set PORT_SUSPEND
    0x4_0_0_00_00_0, // Resuming low, timer runs | set PORT_RESET
    0x7_0_0_00_00_0, // Resuming low, timer runs | set PORT_POWER
    0x3_0_0_00_00_0, // Resuming low, timer runs | clear PORT_ENABLE
    0x7_0_0_00_00_0, // Resuming low, timer runs | clear PORT_SUSPEND
    0x1_0_0_00_00_0, // Resuming low, timer runs | clear PORT_POWER
    0x7_0_0_00_01_0, // Resuming low, timer runs | clear C_PORT_CONNECTION
    0x7_0_0_00_02_0, // Resuming low, timer runs | clear C_PORT_ENABLE
    0x7_0_0_00_04_0, // Resuming low, timer runs | clear C_PORT_SUSPEND
    0x7_0_0_00_08_0, // Resuming low, timer runs | clear C_PORT_OVER_CURRENT
    0x7_0_0_00_10_0, // Resuming low, timer runs | clear C_PORT_RESET
    0x0_0_0_00_00_0, // Resuming low, timer runs | SetConfiguration 0
    0x1_0_0_00_00_0, // Resuming low, timer runs | SetConfiguration 1
    0x0_0_0_00_1f_0, // Resuming low, timer runs | bus reset
    0x7_0_0_00_00_8, // Resuming low, timer ends | attach low
    0x7_0_0_00_00_8, // Resuming low, timer ends | attach full
    0x7_0_0_00_00_8, // Resuming low, timer ends | detach
    0x7_0_0_00_00_8, // Resuming low, timer ends | chirp
    0x7_0_0_00_00_8, // Resuming low, timer ends | wake
    0x7_0_0_00_00_8, // Resuming low, timer ends | port error
    0x1_0_1_08_00_0, // Resuming low, timer ends | over-current on
    0x7_0_0_00_00_0, // Resuming low, timer ends | over-current off
    0x5_0_0_04_00_0, // Resuming low, timer ends | tick
    0x7_0_0_00_00_0, // Resuming low, timer ends | set PORT_SUSPEND
    0x4_0_0_00_00_0, // Resuming low, timer ends | set PORT_RESET
    0x7_0_0_00_00_0, // Resuming low, timer ends | set PORT_POWER
    0x3_0_0_00_00_0, // Resuming low, timer ends | clear PORT_ENABLE
    0x7_0_0_00_00_0, // Resuming low, timer ends | clear PORT_SUSPEND
    0x1_0_0_00_00_0, // Resuming low, timer ends | clear PORT_POWER
    0x7_0_0_00_01_0, // Resuming low, timer ends | clear C_PORT_CONNECTION
    0x7_0_0_00_02_0, // Resuming low, timer ends | clear C_PORT_ENABLE
    0x7_0_0_00_04_0, // Resuming low, timer ends | clear C_PORT_SUSPEND
    0x7_0_0_00_08_0, // Resuming low, timer ends | clear C_PORT_OVER_CURRENT
    0x7_0_0_00_10_0, // Resuming low, timer ends | clear C_PORT_RESET
    0x0_0_0_00_00_0, // Resuming low, timer ends | SetConfiguration 0
    0x1_0_0_00_00_0, // Resuming low, timer ends | SetConfiguration 1
    0x0_0_0_00_1f_0, // Resuming low, timer ends | bus reset
    0x7_1_0_00_00_8, // Resuming full, timer runs | attach low
    0x7_1_0_00_00_8, // Resuming full, timer runs | attach full
    0x7_1_0_00_00_8, // Resuming full, timer runs | detach
    0x7_1_0_00_00_8, // Resuming full, timer runs | chirp
    0x7_1_0_00_00_8, // Resuming full, timer runs | wake
    0x7_1_0_00_00_8, // Resuming full, timer runs | port error
    0x1_0_1_08_00_0, // Resuming full, timer runs | over-current on
    0x7_1_0_00_00_0, // Resuming full, timer runs | over-current off
    0x7_1_0_00_00_0, // Resuming full, timer runs | tick
    0x7_1_0_00_00_0, // Resuming full, timer runs | set PORT_SUSPEND
    0x4_1_0_00_00_0, // Resuming full, timer runs | set PORT_RESET
    0x7_1_0_00_00_0, // Resuming full, timer runs | set PORT_POWER
    0x3_1_0_00_00_0, // Resuming full, timer runs | clear PORT_ENABLE
    0x7_1_0_00_00_0, // Resuming full, timer runs | clear PORT_SUSPEND
    0x1_0_0_00_00_0, // Resuming full, timer runs | clear PORT_POWER
    0x7_1_0_00_01_0, // Resuming full, timer runs | clear C_PORT_CONNECTION
    0x7_1_0_00_02_0, // Resuming full, timer runs | clear C_PORT_ENABLE
    0x7_1_0_00_04_0, // Resuming full, timer runs | clear C_PORT_SUSPEND
    0x7_1_0_00_08_0, // Resuming full, timer runs | clear C_PORT_OVER_CURRENT
    0x7_1_0_00_10_0, // Resuming full, timer runs | clear C_PORT_RESET
    0x0_0_0_00_00_0, // Resuming full, timer runs | SetConfiguration 0
    0x1_0_0_00_00_0, // Resuming full, timer runs | SetConfiguration 1
    0x0_0_0_00_1f_0, // Resuming full, timer runs | bus reset
    0x7_1_0_00_00_8, // Resuming full, timer ends | attach low
    0x7_1_0_00_00_8, // Resuming full, timer ends | attach full
    0x7_1_0_00_00_8, // Resuming full, timer ends | detach
    0x7_1_0_00_00_8, // Resuming full, timer ends | chirp
    0x7_1_0_00_00_8, // Resuming full, timer ends | wake
    0x7_1_0_00_00_8, // Resuming full, timer ends | port error
    0x1_0_1_08_00_0, // Resuming full, timer ends | over-current on
    0x7_1_0_00_00_0, // Resuming full, timer ends | over-current off
    0x5_1_0_04_00_0, // Resuming full, timer ends | tick
    0x7_1_0_00_00_0, // Resuming full, timer ends | set PORT_SUSPEND
    0x4_1_0_00_00_0, // Resuming full, timer ends | set PORT_RESET
    0x7_1_0_00_00_0, // Resuming full, timer ends | set PORT_POWER
    0x3_1_0_00_00_0, // Resuming full, timer ends | clear PORT_ENABLE
    0x7_1_0_00_00_0, // Resuming full, timer ends | clear PORT_SUSPEND
    0x1_0_0_00_00_0, // Resuming full, timer ends | clear PORT_POWER
    0x7_1_0_00_01_0, // Resuming full, timer ends | clear C_PORT_CONNECTION
    0x7_1_0_00_02_0, // Resuming full, timer ends | clear C_PORT_ENABLE
    0x7_1_0_00_04_0, // Resuming full, timer ends | clear C_PORT_SUSPEND
    0x7_1_0_00_08_0, // Resuming full, timer ends | clear C_PORT_OVER_CURRENT
    0x7_1_0_00_10_0, // Resuming full, timer ends | clear C_PORT_RESET
    0x0_0_0_00_00_0, // Resuming full, timer ends | SetConfiguration 0
    0x1_0_0_00_00_0, // Resuming full, timer ends | SetConfiguration 1
    0x0_0_0_00_1f_0, // Resuming full, timer ends | bus reset
    0x7_2_0_00_00_8, // Resuming high, timer runs | attach low
    0x7_2_0_00_00_8, // Resuming high, timer runs | attach full
    0x7_2_0_00_00_8, // Resuming high, timer runs | detach
    0x7_2_0_00_00_8, // Resuming high, timer runs | chirp
    0x7_2_0_00_00_8, // Resuming high, timer runs | wake
    0x7_2_0_00_00_8, // Resuming high, timer runs | port error
    0x1_0_1_08_00_0, // Resuming high, timer runs | over-current on
    0x7_2_0_00_00_0, // Resuming high, timer runs | over-current off
    0x7_2_0_00_00_0, // Resuming high, timer runs | tick
    0x7_2_0_00_00_0, // Resuming high, timer runs | set PORT_SUSPEND
    0x4_1_0_00_00_0, // Resuming high, timer runs | set PORT_RESET
    0x7_2_0_00_00_0, // Resuming high, timer runs | set PORT_POWER
    0x3_2_0_00_00_0, // Resuming high, timer runs | clear PORT_ENABLE
    0x7_2_0_00_00_0, // Resuming high, timer runs | clear PORT_SUSPEND
    0x1_0_0_00_00_0, // Resuming high, timer runs | clear PORT_POWER
    0x7_2_0_00_01_0, // Resuming high, timer runs | clear C_PORT_CONNECTION
    0x7_2_0_00_02_0, // Resuming high, timer runs | clear C_PORT_ENABLE
    0x7_2_0_00_04_0, // Resuming high, timer runs | clear C_PORT_SUSPEND
    0x7_2_0_00_08_0, // Resuming high, timer runs | clear C_PORT_OVER_CURRENT
    0x7_2_0_00_10_0, // Resuming high, timer runs | clear C_PORT_RESET
    0x0_0_0_00_00_0, // Resuming high, timer runs | SetConfiguration 0
    0x1_0_0_00_00_0, // Resuming high, timer runs | SetConfiguration 1
    0x0_0_0_00_1f_0, // Resuming high, timer runs | bus reset
    0x7_2_0_00_00_8, // Resuming high, timer ends | attach low
    0x7_2_0_00_00_8, // Resuming high, timer ends | attach full
    0x7_2_0_00_00_8, // Resuming high, timer ends | detach
    0x7_2_0_00_00_8, // Resuming high, timer ends | chirp
    0x7_2_0_00_00_8, // Resuming high, timer ends | wake
    0x7_2_0_00_00_8, // Resuming high, timer ends | port error
    0x1_0_1_08_00_0, // Resuming high, timer ends | over-current on
    0x7_2_0_00_00_0, // Resuming high, timer ends | over-current off
    0x5_2_0_04_00_0, // Resuming high, timer ends | tick
    0x7_2_0_00_00_0, // Resuming high, timer ends | set PORT_SUSPEND
    0x4_1_0_00_00_0, // Resuming high, timer ends | set PORT_RESET
    0x7_2_0_00_00_0, // Resuming high, timer ends | set PORT_POWER
    0x3_2_0_00_00_0, // Resuming high, timer ends | clear PORT_ENABLE
    0x7_2_0_00_00_0, // Resuming high, timer ends | clear PORT_SUSPEND
    0x1_0_0_00_00_0, // Resuming high, timer ends | clear PORT_POWER
    0x7_2_0_00_01_0, // Resuming high, timer ends | clear C_PORT_CONNECTION
    0x7_2_0_00_02_0, // Resuming high, timer ends | clear C_PORT_ENABLE
    0x7_2_0_00_04_0, // Resuming high, timer ends | clear C_PORT_SUSPEND
    0x7_2_0_00_08_0, // Resuming high, timer ends | clear C_PORT_OVER_CURRENT
    0x7_2_0_00_10_0, // Resuming high, timer ends | clear C_PORT_RESET
    0x0_0_0_00_00_0, // Resuming high, timer ends | SetConfiguration 0
    0x1_0_0_00_00_0, // Resuming high, timer ends | SetConfiguration 1
    0x0_0_0_00_1f_0, // Resuming high, timer ends | bus reset
    0x0_0_1_00_00_8, // Not Configured, over-current | attach low
    0x0_0_1_00_00_8, // Not Configured, over-current | attach full
    0x0_0_1_00_00_8, // Not Configured, over-current | detach
    0x0_0_1_00_00_8, // Not Configured, over-current | chirp
    0x0_0_1_00_00_8, // Not Configured, over-current | wake
    0x0_0_1_00_00_8, // Not Configured, over-current | port error
    0x0_0_1_00_00_8, // Not Configured, over-current | over-current on
    0x0_0_1_00_00_8, // Not Configured, over-current | over-current off
    0x0_0_1_00_00_0, // Not Configured, over-current | tick
    0x0_0_1_00_00_2, // Not Configured, over-current | set PORT_SUSPEND
    0x0_0_1_00_00_2, // Not Configured, over-current | set PORT_RESET
    0x0_0_1_00_00_2, // Not Configured, over-current | set PORT_POWER
    0x0_0_1_00_00_2, // Not Configured, over-current | clear PORT_ENABLE
    0x0_0_1_00_00_2, // Not Configured, over-current | clear PORT_SUSPEND
    0x0_0_1_00_00_2, // Not Configured, over-current | clear PORT_POWER
    0x0_0_1_00_00_2, // Not Configured, over-current | clear C_PORT_CONNECTION
    0x0_0_1_00_00_2, // Not Configured, over-current | clear C_PORT_ENABLE
    0x0_0_1_00_00_2, // Not Configured, over-current | clear C_PORT_SUSPEND
    0x0_0_1_00_00_2, // Not Configured, over-current | clear C_PORT_OVER_CURRENT
    0x0_0_1_00_00_2, // Not Configured, over-current | clear C_PORT_RESET
    0x0_0_0_00_00_0, // Not Configured, over-current | SetConfiguration 0
    0x1_0_1_00_00_0, // Not Configured, over-current | SetConfiguration 1
    0x0_0_0_00_1f_0, // Not Configured, over-current | bus reset
    0x1_0_1_00_00_8, // Powered-off, over-current | attach low
    0x1_0_1_00_00_8, // Powered-off, over-current | attach full
    0x1_0_1_00_00_8, // Powered-off, over-current | detach
    0x1_0_1_00_00_8, // Powered-off, over-current | chirp
    0x1_0_1_00_00_8, // Powered-off, over-current | wake
    0x1_0_1_00_00_8, // Powered-off, over-current | port error
    0x1_0_1_00_00_0, // Powered-off, over-current | over-current on
    0x1_0_0_08_00_0, // Powered-off, over-current | over-current off
    0x1_0_1_00_00_0, // Powered-off, over-current | tick
    0x1_0_1_00_00_0, // Powered-off, over-current | set PORT_SUSPEND
    0x1_0_1_00_00_0, // Powered-off, over-current | set PORT_RESET
    0x1_0_1_00_00_0, // Powered-off, over-current | set PORT_POWER
    0x1_0_1_00_00_0, // Powered-off, over-current | clear PORT_ENABLE
    0x1_0_1_00_00_0, // Powered-off, over-current | clear PORT_SUSPEND
    0x1_0_1_00_00_0, // Powered-off, over-current | clear PORT_POWER
    0x1_0_1_00_01_0, // Powered-off, over-current | clear C_PORT_CONNECTION
    0x1_0_1_00_02_0, // Powered-off, over-current | clear C_PORT_ENABLE
    0x1_0_1_00_04_0, // Powered-off, over-current | clear C_PORT_SUSPEND
    0x1_0_1_00_08_0, // Powered-off, over-current | clear C_PORT_OVER_CURRENT
    0x1_0_1_00_10_0, // Powered-off, over-current | clear C_PORT_RESET
    0x0_0_0_00_00_0, // Powered-off, over-current | SetConfiguration 0
    0x1_0_1_00_00_0, // Powered-off, over-current | SetConfiguration 1
    0x0_0_0_00_1f_0, // Powered-off, over-current | bus reset
    0x3_0_1_01_00_0, // Disconnected, over-current | attach low
    0x3_1_1_01_00_0, // Disconnected, over-current | attach full
    0x2_0_1_00_00_8, // Disconnected, over-current | detach
    0x2_0_1_00_00_8, // Disconnected, over-current | chirp
    0x2_0_1_00_00_8, // Disconnected, over-current | wake
    0x2_0_1_00_00_8, // Disconnected, over-current | port error
    0x2_0_1_00_00_0, // Disconnected, over-current | over-current on
    0x2_0_0_08_00_0, // Disconnected, over-current | over-current off
    0x2_0_1_00_00_0, // Disconnected, over-current | tick
    0x2_0_1_00_00_0, // Disconnected, over-current | set PORT_SUSPEND
    0x2_0_1_00_00_0, // Disconnected, over-current | set PORT_RESET
    0x2_0_1_00_00_0, // Disconnected, over-current | set PORT_POWER
    0x2_0_1_00_00_0, // Disconnected, over-current | clear PORT_ENABLE
    0x2_0_1_00_00_0, // Disconnected, over-current | clear PORT_SUSPEND
    0x1_0_1_00_00_0, // Disconnected, over-current | clear PORT_POWER
    0x2_0_1_00_01_0, // Disconnected, over-current | clear C_PORT_CONNECTION
    0x2_0_1_00_02_0, // Disconnected, over-current | clear C_PORT_ENABLE
    0x2_0_1_00_04_0, // Disconnected, over-current | clear C_PORT_SUSPEND
    0x2_0_1_00_08_0, // Disconnected, over-current | clear C_PORT_OVER_CURRENT
    0x2_0_1_00_10_0, // Disconnected, over-current | clear C_PORT_RESET
    0x0_0_0_00_00_0, // Disconnected, over-current | SetConfiguration 0
    0x1_0_1_00_00_0, // Disconnected, over-current | SetConfiguration 1
    0x0_0_0_00_1f_0, // Disconnected, over-current | bus reset
    0x3_0_1_00_00_8, // Disabled low, over-current | attach low
    0x3_0_1_00_00_8, // Disabled low, over-current | attach full
    0x2_0_1_01_00_0, // Disabled low, over-current | detach
    0x3_0_1_00_00_8, // Disabled low, over-current | chirp
    0x3_0_1_00_00_8, // Disabled low, over-current | wake
    0x3_0_1_00_00_8, // Disabled low, over-current | port error
    0x3_0_1_00_00_0, // Disabled low, over-current | over-current on
    0x3_0_0_08_00_0, // Disabled low, over-current | over-current off
    0x3_0_1_00_00_0, // Disabled low, over-current | tick
    0x3_0_1_00_00_0, // Disabled low, over-current | set PORT_SUSPEND
    0x4_0_1_00_00_0, // Disabled low, over-current | set PORT_RESET
    0x3_0_1_00_00_0, // Disabled low, over-current | set PORT_POWER
    0x3_0_1_00_00_0, // Disabled low, over-current | clear PORT_ENABLE
    0x3_0_1_00_00_0, // Disabled low, over-current | clear PORT_SUSPEND
    0x1_0_1_00_00_0, // Disabled low, over-current | clear PORT_POWER
    0x3_0_1_00_01_0, // Disabled low, over-current | clear C_PORT_CONNECTION
    0x3_0_1_00_02_0, // Disabled low, over-current | clear C_PORT_ENABLE
    0x3_0_1_00_04_0, // Disabled low, over-current | clear C_PORT_SUSPEND
    0x3_0_1_00_08_0, // Disabled low, over-current | clear C_PORT_OVER_CURRENT
    0x3_0_1_00_10_0, // Disabled low, over-current | clear C_PORT_RESET
    0x0_0_0_00_00_0, // Disabled low, over-current | SetConfiguration 0
    0x1_0_1_00_00_0, // Disabled low, over-current | SetConfiguration 1
    0x0_0_0_00_1f_0, // Disabled low, over-current | bus reset
    0x3_1_1_00_00_8, // Disabled full, over-current | attach low
    0x3_1_1_00_00_8, // Disabled full, over-current | attach full
    0x2_0_1_01_00_0, // Disabled full, over-current | detach
    0x3_1_1_00_00_8, // Disabled full, over-current | chirp
    0x3_1_1_00_00_8, // Disabled full, over-current | wake
    0x3_1_1_00_00_8, // Disabled full, over-current | port error
    0x3_1_1_00_00_0, // Disabled full, over-current | over-current on
    0x3_1_0_08_00_0, // Disabled full, over-current | over-current off
    0x3_1_1_00_00_0, // Disabled full, over-current | tick
    0x3_1_1_00_00_0, // Disabled full, over-current | set PORT_SUSPEND
    0x4_1_1_00_00_0, // Disabled full, over-current | set PORT_RESET
    0x3_1_1_00_00_0, // Disabled full, over-current | set PORT_POWER
    0x3_1_1_00_00_0, // Disabled full, over-current | clear PORT_ENABLE
    0x3_1_1_00_00_0, // Disabled full, over-current | clear PORT_SUSPEND
    0x1_0_1_00_00_0, // Disabled full, over-current | clear PORT_POWER
    0x3_1_1_00_01_0, // Disabled full, over-current | clear C_PORT_CONNECTION
    0x3_1_1_00_02_0, // Disabled full, over-current | clear C_PORT_ENABLE
    0x3_1_1_00_04_0, // Disabled full, over-current | clear C_PORT_SUSPEND
    0x3_1_1_00_08_0, // Disabled full, over-current | clear C_PORT_OVER_CURRENT
    0x3_1_1_00_10_0, // Disabled full, over-current | clear C_PORT_RESET
    0x0_0_0_00_00_0, // Disabled full, over-current | SetConfiguration 0
    0x1_0_1_00_00_0, // Disabled full, over-current | SetConfiguration 1
    0x0_0_0_00_1f_0, // Disabled full, over-current | bus reset
    0x3_2_1_00_00_8, // Disabled high, over-current | attach low
    0x3_2_1_00_00_8, // Disabled high, over-current | attach full
    0x2_0_1_01_00_0, // Disabled high, over-current | detach
    0x3_2_1_00_00_8, // Disabled high, over-current | chirp
    0x3_2_1_00_00_8, // Disabled high, over-current | wake
    0x3_2_1_00_00_8, // Disabled high, over-current | port error
    0x3_2_1_00_00_0, // Disabled high, over-current | over-current on
    0x3_2_0_08_00_0, // Disabled high, over-current | over-current off
    0x3_2_1_00_00_0, // Disabled high, over-current | tick
    0x3_2_1_00_00_0, // Disabled high, over-current | set PORT_SUSPEND
    0x4_1_1_00_00_0, // Disabled high, over-current | set PORT_RESET
    0x3_2_1_00_00_0, // Disabled high, over-current | set PORT_POWER
    0x3_2_1_00_00_0, // Disabled high, over-current | clear PORT_ENABLE
    0x3_2_1_00_00_0, // Disabled high, over-current | clear PORT_SUSPEND
    0x1_0_1_00_00_0, // Disabled high, over-current | clear PORT_POWER
    0x3_2_1_00_01_0, // Disabled high, over-current | clear C_PORT_CONNECTION
    0x3_2_1_00_02_0, // Disabled high, over-current | clear C_PORT_ENABLE
    0x3_2_1_00_04_0, // Disabled high, over-current | clear C_PORT_SUSPEND
    0x3_2_1_00_08_0, // Disabled high, over-current | clear C_PORT_OVER_CURRENT
    0x3_2_1_00_10_0, // Disabled high, over-current | clear C_PORT_RESET
    0x0_0_0_00_00_0, // Disabled high, over-current | SetConfiguration 0
    0x1_0_1_00_00_0, // Disabled high, over-current | SetConfiguration 1
    0x0_0_0_00_1f_0, // Disabled high, over-current | bus reset
    0x4_0_1_00_00_8, // Resetting low, timer runs, over-current | attach low
    0x4_0_1_00_00_8, // Resetting low, timer runs, over-current | attach full
    0x4_0_1_00_00_8, // Resetting low, timer runs, over-current | detach
    0x4_0_1_00_00_8, // Resetting low, timer runs, over-current | chirp
    0x4_0_1_00_00_8, // Resetting low, timer runs, over-current | wake
    0x4_0_1_00_00_8, // Resetting low, timer runs, over-current | port error
    0x4_0_1_00_00_0, // Resetting low, timer runs, over-current | over-current on
    0x4_0_0_08_00_0, // Resetting low, timer runs, over-current | over-current off
    0x4_0_1_00_00_0, // Resetting low, timer runs, over-current | tick
    0x4_0_1_00_00_0, // Resetting low, timer runs, over-current | set PORT_SUSPEND
    0x4_0_1_00_00_0, // Resetting low, timer runs, over-current | set PORT_RESET
    0x4_0_1_00_00_0, // Resetting low, timer runs, over-current | set PORT_POWER
    0x3_0_1_00_00_0, // Resetting low, timer runs, over-current | clear PORT_ENABLE
    0x4_0_1_00_00_0, // Resetting low, timer runs, over-current | clear PORT_SUSPEND
    0x1_0_1_00_00_0, // Resetting low, timer runs, over-current | clear PORT_POWER
    0x4_0_1_00_01_0, // Resetting low, timer runs, over-current | clear C_PORT_CONNECTION
    0x4_0_1_00_02_0, // Resetting low, timer runs, over-current | clear C_PORT_ENABLE
    0x4_0_1_00_04_0, // Resetting low, timer runs, over-current | clear C_PORT_SUSPEND
    0x4_0_1_00_08_0, // Resetting low, timer runs, over-current | clear C_PORT_OVER_CURRENT
    0x4_0_1_00_10_0, // Resetting low, timer runs, over-current | clear C_PORT_RESET
    0x0_0_0_00_00_0, // Resetting low, timer runs, over-current | SetConfiguration 0
    0x1_0_1_00_00_0, // Resetting low, timer runs, over-current | SetConfiguration 1
    0x0_0_0_00_1f_0, // Resetting low, timer runs, over-current | bus reset
    0x4_0_1_00_00_8, // Resetting low, timer ends, over-current | attach low
    0x4_0_1_00_00_8, // Resetting low, timer ends, over-current | attach full
    0x4_0_1_00_00_8, // Resetting low, timer ends, over-current | detach
    0x4_0_1_00_00_8, // Resetting low, timer ends, over-current | chirp
    0x4_0_1_00_00_8, // Resetting low, timer ends, over-current | wake
    0x4_0_1_00_00_8, // Resetting low, timer ends, over-current | port error
    0x4_0_1_00_00_0, // Resetting low, timer ends, over-current | over-current on
    0x4_0_0_08_00_0, // Resetting low, timer ends, over-current | over-current off
    0x5_0_1_10_00_0, // Resetting low, timer ends, over-current | tick
    0x4_0_1_00_00_0, // Resetting low, timer ends, over-current | set PORT_SUSPEND
    0x4_0_1_00_00_0, // Resetting low, timer ends, over-current | set PORT_RESET
    0x4_0_1_00_00_0, // Resetting low, timer ends, over-current | set PORT_POWER
    0x3_0_1_00_00_0, // Resetting low, timer ends, over-current | clear PORT_ENABLE
    0x4_0_1_00_00_0, // Resetting low, timer ends, over-current | clear PORT_SUSPEND
    0x1_0_1_00_00_0, // Resetting low, timer ends, over-current | clear PORT_POWER
    0x4_0_1_00_01_0, // Resetting low, timer ends, over-current | clear C_PORT_CONNECTION
    0x4_0_1_00_02_0, // Resetting low, timer ends, over-current | clear C_PORT_ENABLE
    0x4_0_1_00_04_0, // Resetting low, timer ends, over-current | clear C_PORT_SUSPEND
    0x4_0_1_00_08_0, // Resetting low, timer ends, over-current | clear C_PORT_OVER_CURRENT
    0x4_0_1_00_10_0, // Resetting low, timer ends, over-current | clear C_PORT_RESET
    0x0_0_0_00_00_0, // Resetting low, timer ends, over-current | SetConfiguration 0
    0x1_0_1_00_00_0, // Resetting low, timer ends, over-current | SetConfiguration 1
    0x0_0_0_00_1f_0, // Resetting low, timer ends, over-current | bus reset
    0x4_1_1_00_00_8, // Resetting full, timer runs, over-current | attach low
    0x4_1_1_00_00_8, // Resetting full, timer runs, over-current | attach full
    0x4_1_1_00_00_8, // Resetting full, timer runs, over-current | detach
    0x4_2_1_00_00_0, // Resetting full, timer runs, over-current | chirp
    0x4_1_1_00_00_8, // Resetting full, timer runs, over-current | wake
    0x4_1_1_00_00_8, // Resetting full, timer runs, over-current | port error
    0x4_1_1_00_00_0, // Resetting full, timer runs, over-current | over-current on
    0x4_1_0_08_00_0, // Resetting full, timer runs, over-current | over-current off
    0x4_1_1_00_00_0, // Resetting full, timer runs, over-current | tick
    0x4_1_1_00_00_0, // Resetting full, timer runs, over-current | set PORT_SUSPEND
    0x4_1_1_00_00_0, // Resetting full, timer runs, over-current | set PORT_RESET
    0x4_1_1_00_00_0, // Resetting full, timer runs, over-current | set PORT_POWER
    0x3_1_1_00_00_0, // Resetting full, timer runs, over-current | clear PORT_ENABLE
    0x4_1_1_00_00_0, // Resetting full, timer runs, over-current | clear PORT_SUSPEND
    0x1_0_1_00_00_0, // Resetting full, timer runs, over-current | clear PORT_POWER
    0x4_1_1_00_01_0, // Resetting full, timer runs, over-current | clear C_PORT_CONNECTION
    0x4_1_1_00_02_0, // Resetting full, timer runs, over-current | clear C_PORT_ENABLE
    0x4_1_1_00_04_0, // Resetting full, timer runs, over-current | clear C_PORT_SUSPEND
    0x4_1_1_00_08_0, // Resetting full, timer runs, over-current | clear C_PORT_OVER_CURRENT
    0x4_1_1_00_10_0, // Resetting full, timer runs, over-current | clear C_PORT_RESET
    0x0_0_0_00_00_0, // Resetting full, timer runs, over-current | SetConfiguration 0
    0x1_0_1_00_00_0, // Resetting full, timer runs, over-current | SetConfiguration 1
    0x0_0_0_00_1f_0, // Resetting full, timer runs, over-current | bus reset
    0x4_1_1_00_00_8, // Resetting full, timer ends, over-current | attach low
    0x4_1_1_00_00_8, // Resetting full, timer ends, over-current | attach full
    0x4_1_1_00_00_8, // Resetting full, timer ends, over-current | detach
    0x4_2_1_00_00_0, // Resetting full, timer ends, over-current | chirp
    0x4_1_1_00_00_8, // Resetting full, timer ends, over-current | wake
    0x4_1_1_00_00_8, // Resetting full, timer ends, over-current | port error
    0x4_1_1_00_00_0, // Resetting full, timer ends, over-current | over-current on
    0x4_1_0_08_00_0, // Resetting full, timer ends, over-current | over-current off
    0x5_1_1_10_00_0, // Resetting full, timer ends, over-current | tick
    0x4_1_1_00_00_0, // Resetting full, timer ends, over-current | set PORT_SUSPEND
    0x4_1_1_00_00_0, // Resetting full, timer ends, over-current | set PORT_RESET
    0x4_1_1_00_00_0, // Resetting full, timer ends, over-current | set PORT_POWER
    0x3_1_1_00_00_0, // Resetting full, timer ends, over-current | clear PORT_ENABLE
    0x4_1_1_00_00_0, // Resetting full, timer ends, over-current | clear PORT_SUSPEND
    0x1_0_1_00_00_0, // Resetting full, timer ends, over-current | clear PORT_POWER
    0x4_1_1_00_01_0, // Resetting full, timer ends, over-current | clear C_PORT_CONNECTION
    0x4_1_1_00_02_0, // Resetting full, timer ends, over-current | clear C_PORT_ENABLE
    0x4_1_1_00_04_0, // Resetting full, timer ends, over-current | clear C_PORT_SUSPEND
    0x4_1_1_00_08_0, // Resetting full, timer ends, over-current | clear C_PORT_OVER_CURRENT
    0x4_1_1_00_10_0, // Resetting full, timer ends, over-current | clear C_PORT_RESET
    0x0_0_0_00_00_0, // Resetting full, timer ends, over-current | SetConfiguration 0
    0x1_0_1_00_00_0, // Resetting full, timer ends, over-current | SetConfiguration 1
    0x0_0_0_00_1f_0, // Resetting full, timer ends, over-current | bus reset
    0x4_2_1_00_00_8, // Resetting high, timer runs, over-current | attach low
    0x4_2_1_00_00_8, // Resetting high, timer runs, over-current | attach full
    0x4_2_1_00_00_8, // Resetting high, timer runs, over-current | detach
    0x4_2_1_00_00_8, // Resetting high, timer runs, over-current | chirp
    0x4_2_1_00_00_8, // Resetting high, timer runs, over-current | wake
    0x4_2_1_00_00_8, // Resetting high, timer runs, over-current | port error
    0x4_2_1_00_00_0, // Resetting high, timer runs, over-current | over-current on
    0x4_2_0_08_00_0, // Resetting high, timer runs, over-current | over-current off
    0x4_2_1_00_00_0, // Resetting high, timer runs, over-current | tick
    0x4_2_1_00_00_0, // Resetting high, timer runs, over-current | set PORT_SUSPEND
    0x4_2_1_00_00_0, // Resetting high, timer runs, over-current | set PORT_RESET
    0x4_2_1_00_00_0, // Resetting high, timer runs, over-current | set PORT_POWER
    0x3_2_1_00_00_0, // Resetting high, timer runs, over-current | clear PORT_ENABLE
    0x4_2_1_00_00_0, // Resetting high, timer runs, over-current | clear PORT_SUSPEND
    0x1_0_1_00_00_0, // Resetting high, timer runs, over-current | clear PORT_POWER
    0x4_2_1_00_01_0, // Resetting high, timer runs, over-current | clear C_PORT_CONNECTION
    0x4_2_1_00_02_0, // Resetting high, timer runs, over-current | clear C_PORT_ENABLE
    0x4_2_1_00_04_0, // Resetting high, timer runs, over-current | clear C_PORT_SUSPEND
    0x4_2_1_00_08_0, // Resetting high, timer runs, over-current | clear C_PORT_OVER_CURRENT
    0x4_2_1_00_10_0, // Resetting high, timer runs, over-current | clear C_PORT_RESET
    0x0_0_0_00_00_0, // Resetting high, timer runs, over-current | SetConfiguration 0
    0x1_0_1_00_00_0, // Resetting high, timer runs, over-current | SetConfiguration 1
    0x0_0_0_00_1f_0, // Resetting high, timer runs, over-current | bus reset
    0x4_2_1_00_00_8, // Resetting high, timer ends, over-current | attach low
    0x4_2_1_00_00_8, // Resetting high, timer ends, over-current | attach full
    0x4_2_1_00_00_8, // Resetting high, timer ends, over-current | detach
    0x4_2_1_00_00_8, // Resetting high, timer ends, over-current | chirp
    0x4_2_1_00_00_8, // Resetting high, timer ends, over-current | wake
    0x4_2_1_00_00_8, // Resetting high, timer ends, over-current | port error
    0x4_2_1_00_00_0, // Resetting high, timer ends, over-current | over-current on
    0x4_2_0_08_00_0, // Resetting high, timer ends, over-current | over-current off
    0x5_2_1_10_00_0, // Resetting high, timer ends, over-current | tick
    0x4_2_1_00_00_0, // Resetting high, timer ends, over-current | set PORT_SUSPEND
    0x4_2_1_00_00_0, // Resetting high, timer ends, over-current | set PORT_RESET
    0x4_2_1_00_00_0, // Resetting high, timer ends, over-current | set PORT_POWER
    0x3_2_1_00_00_0, // Resetting high, timer ends, over-current | clear PORT_ENABLE
    0x4_2_1_00_00_0, // Resetting high, timer ends, over-current | clear PORT_SUSPEND
    0x1_0_1_00_00_0, // Resetting high, timer ends, over-current | clear PORT_POWER
    0x4_2_1_00_01_0, // Resetting high, timer ends, over-current | clear C_PORT_CONNECTION
    0x4_2_1_00_02_0, // Resetting high, timer ends, over-current | clear C_PORT_ENABLE
    0x4_2_1_00_04_0, // Resetting high, timer ends, over-current | clear C_PORT_SUSPEND
    0x4_2_1_00_08_0, // Resetting high, timer ends, over-current | clear C_PORT_OVER_CURRENT
    0x4_2_1_00_10_0, // Resetting high, timer ends, over-current | clear C_PORT_RESET
    0x0_0_0_00_00_0, // Resetting high, timer ends, over-current | SetConfiguration 0
    0x1_0_1_00_00_0, // Resetting high, timer ends, over-current | SetConfiguration 1
    0x0_0_0_00_1f_0, // Resetting high, timer ends, over-current | bus reset
    0x5_0_1_00_00_8, // Enabled low, over-current | attach low
    0x5_0_1_00_00_8, // Enabled low, over-current | attach full
    0x2_0_1_01_00_0, // Enabled low, over-current | detach
    0x5_0_1_00_00_8, // Enabled low, over-current | chirp
    0x5_0_1_00_00_8, // Enabled low, over-current | wake
    0x3_0_1_02_00_0, // Enabled low, over-current | port error
    0x5_0_1_00_00_0, // Enabled low, over-current | over-current on
    0x5_0_0_08_00_0, // Enabled low, over-current | over-current off
    0x5_0_1_00_00_0, // Enabled low, over-current | tick
    0x6_0_1_00_00_0, // Enabled low, over-current | set PORT_SUSPEND
    0x4_0_1_00_00_0, // Enabled low, over-current | set PORT_RESET
    0x5_0_1_00_00_0, // Enabled low, over-current | set PORT_POWER
    0x3_0_1_00_00_0, // Enabled low, over-current | clear PORT_ENABLE
    0x5_0_1_00_00_0, // Enabled low, over-current | clear PORT_SUSPEND
    0x1_0_1_00_00_0, // Enabled low, over-current | clear PORT_POWER
    0x5_0_1_00_01_0, // Enabled low, over-current | clear C_PORT_CONNECTION
    0x5_0_1_00_02_0, // Enabled low, over-current | clear C_PORT_ENABLE
    0x5_0_1_00_04_0, // Enabled low, over-current | clear C_PORT_SUSPEND
    0x5_0_1_00_08_0, // Enabled low, over-current | clear C_PORT_OVER_CURRENT
    0x5_0_1_00_10_0, // Enabled low, over-current | clear C_PORT_RESET
    0x0_0_0_00_00_0, // Enabled low, over-current | SetConfiguration 0
    0x1_0_1_00_00_0, // Enabled low, over-current | SetConfiguration 1
    0x0_0_0_00_1f_0, // Enabled low, over-current | bus reset
    0x5_1_1_00_00_8, // Enabled full, over-current | attach low
    0x5_1_1_00_00_8, // Enabled full, over-current | attach full
    0x2_0_1_01_00_0, // Enabled full, over-current | detach
    0x5_1_1_00_00_8, // Enabled full, over-current | chirp
    0x5_1_1_00_00_8, // Enabled full, over-current | wake
    0x3_1_1_02_00_0, // Enabled full, over-current | port error
    0x5_1_1_00_00_0, // Enabled full, over-current | over-current on
    0x5_1_0_08_00_0, // Enabled full, over-current | over-current off
    0x5_1_1_00_00_0, // Enabled full, over-current | tick
    0x6_1_1_00_00_0, // Enabled full, over-current | set PORT_SUSPEND
    0x4_1_1_00_00_0, // Enabled full, over-current | set PORT_RESET
    0x5_1_1_00_00_0, // Enabled full, over-current | set PORT_POWER
    0x3_1_1_00_00_0, // Enabled full, over-current | clear PORT_ENABLE
    0x5_1_1_00_00_0, // Enabled full, over-current | clear PORT_SUSPEND
    0x1_0_1_00_00_0, // Enabled full, over-current | clear PORT_POWER
    0x5_1_1_00_01_0, // Enabled full, over-current | clear C_PORT_CONNECTION
    0x5_1_1_00_02_0, // Enabled full, over-current | clear C_PORT_ENABLE
    0x5_1_1_00_04_0, // Enabled full, over-current | clear C_PORT_SUSPEND
    0x5_1_1_00_08_0, // Enabled full, over-current | clear C_PORT_OVER_CURRENT
    0x5_1_1_00_10_0, // Enabled full, over-current | clear C_PORT_RESET
    0x0_0_0_00_00_0, // Enabled full, over-current | SetConfiguration 0
    0x1_0_1_00_00_0, // Enabled full, over-current | SetConfiguration 1
    0x0_0_0_00_1f_0, // Enabled full, over-current | bus reset
    0x5_2_1_00_00_8, // Enabled high, over-current | attach low
    0x5_2_1_00_00_8, // Enabled high, over-current | attach full
    0x2_0_1_01_00_0, // Enabled high, over-current | detach
    0x5_2_1_00_00_8, // Enabled high, over-current | chirp
    0x5_2_1_00_00_8, // Enabled high, over-current | wake
    0x3_2_1_02_00_0, // Enabled high, over-current | port error
    0x5_2_1_00_00_0, // Enabled high, over-current | over-current on
    0x5_2_0_08_00_0, // Enabled high, over-current | over-current off
    0x5_2_1_00_00_0, // Enabled high, over-current | tick
    0x6_2_1_00_00_0, // Enabled high, over-current | set PORT_SUSPEND
    0x4_1_1_00_00_0, // Enabled high, over-current | set PORT_RESET
    0x5_2_1_00_00_0, // Enabled high, over-current | set PORT_POWER
    0x3_2_1_00_00_0, // Enabled high, over-current | clear PORT_ENABLE
    0x5_2_1_00_00_0, // Enabled high, over-current | clear PORT_SUSPEND
    0x1_0_1_00_00_0, // Enabled high, over-current | clear PORT_POWER
    0x5_2_1_00_01_0, // Enabled high, over-current | clear C_PORT_CONNECTION
    0x5_2_1_00_02_0, // Enabled high, over-current | clear C_PORT_ENABLE
    0x5_2_1_00_04_0, // Enabled high, over-current | clear C_PORT_SUSPEND
    0x5_2_1_00_08_0, // Enabled high, over-current | clear C_PORT_OVER_CURRENT
    0x5_2_1_00_10_0, // Enabled high, over-current | clear C_PORT_RESET
    0x0_0_0_00_00_0, // Enabled high, over-current | SetConfiguration 0
    0x1_0_1_00_00_0, // Enabled high, over-current | SetConfiguration 1
    0x0_0_0_00_1f_0, // Enabled high, over-current | bus reset
    0x6_0_1_00_00_8, // Suspended low, over-current | attach low
    0x6_0_1_00_00_8, // Suspended low, over-current | attach full
    0x2_0_1_01_00_0, // Suspended low, over-current | detach
    0x6_0_1_00_00_8, // Suspended low, over-current | chirp
    0x7_0_1_00_00_0, // Suspended low, over-current | wake
    0x6_0_1_00_00_8, // Suspended low, over-current | port error
    0x6_0_1_00_00_0, // Suspended low, over-current | over-current on
    0x6_0_0_08_00_0, // Suspended low, over-current | over-current off
    0x6_0_1_00_00_0, // Suspended low, over-current | tick
    0x6_0_1_00_00_0, // Suspended low, over-current | set PORT_SUSPEND
    0x4_0_1_00_00_0, // Suspended low, over-current | set PORT_RESET
    0x6_0_1_00_00_0, // Suspended low, over-current | set PORT_POWER
    0x3_0_1_00_00_0, // Suspended low, over-current | clear PORT_ENABLE
    0x7_0_1_00_00_0, // Suspended low, over-current | clear PORT_SUSPEND
    0x1_0_1_00_00_0, // Suspended low, over-current | clear PORT_POWER
    0x6_0_1_00_01_0, // Suspended low, over-current | clear C_PORT_CONNECTION
    0x6_0_1_00_02_0, // Suspended low, over-current | clear C_PORT_ENABLE
    0x6_0_1_00_04_0, // Suspended low, over-current | clear C_PORT_SUSPEND
    0x6_0_1_00_08_0, // Suspended low, over-current | clear C_PORT_OVER_CURRENT
    0x6_0_1_00_10_0, // Suspended low, over-current | clear C_PORT_RESET
    0x0_0_0_00_00_0, // Suspended low, over-current | SetConfiguration 0
    0x1_0_1_00_00_0, // Suspended low, over-current | SetConfiguration 1
    0x0_0_0_00_1f_0, // Suspended low, over-current | bus reset
    0x6_1_1_00_00_8, // Suspended full, over-current | attach low
    0x6_1_1_00_00_8, // Suspended full, over-current | attach full
    0x2_0_1_01_00_0, // Suspended full, over-current | detach
    0x6_1_1_00_00_8, // Suspended full, over-current | chirp
    0x7_1_1_00_00_0, // Suspended full, over-current | wake
    0x6_1_1_00_00_8, // Suspended full, over-current | port error
    0x6_1_1_00_00_0, // Suspended full, over-current | over-current on
    0x6_1_0_08_00_0, // Suspended full, over-current | over-current off
    0x6_1_1_00_00_0, // Suspended full, over-current | tick
    0x6_1_1_00_00_0, // Suspended full, over-current | set PORT_SUSPEND
    0x4_1_1_00_00_0, // Suspended full, over-current | set PORT_RESET
    0x6_1_1_00_00_0, // Suspended full, over-current | set PORT_POWER
    0x3_1_1_00_00_0, // Suspended full, over-current | clear PORT_ENABLE
    0x7_1_1_00_00_0, // Suspended full, over-current | clear PORT_SUSPEND
    0x1_0_1_00_00_0, // Suspended full, over-current | clear PORT_POWER
    0x6_1_1_00_01_0, // Suspended full, over-current | clear C_PORT_CONNECTION
    0x6_1_1_00_02_0, // Suspended full, over-current | clear C_PORT_ENABLE
    0x6_1_1_00_04_0, // Suspended full, over-current | clear C_PORT_SUSPEND
    0x6_1_1_00_08_0, // Suspended full, over-current | clear C_PORT_OVER_CURRENT
    0x6_1_1_00_10_0, // Suspended full, over-current | clear C_PORT_RESET
    0x0_0_0_00_00_0, // Suspended full, over-current | SetConfiguration 0
    0x1_0_1_00_00_0, // Suspended full, over-current | SetConfiguration 1
    0x0_0_0_00_1f_0, // Suspended full, over-current | bus reset
    0x6_2_1_00_00_8, // Suspended high, over-current | attach low
    0x6_2_1_00_00_8, // Suspended high, over-current | attach full
    0x2_0_1_01_00_0, // Suspended high, over-current | detach
    0x6_2_1_00_00_8, // Suspended high, over-current | chirp
    0x7_2_1_00_00_0, // Suspended high, over-current | wake
    0x6_2_1_00_00_8, // Suspended high, over-current | port error
    0x6_2_1_00_00_0, // Suspended high, over-current | over-current on
    0x6_2_0_08_00_0, // Suspended high, over-current | over-current off
    0x6_2_1_00_00_0, // Suspended high, over-current | tick
    0x6_2_1_00_00_0, // Suspended high, over-current | set PORT_SUSPEND
    0x4_1_1_00_00_0, // Suspended high, over-current | set PORT_RESET
    0x6_2_1_00_00_0, // Suspended high, over-current | set PORT_POWER
    0x3_2_1_00_00_0, // Suspended high, over-current | clear PORT_ENABLE
    0x7_2_1_00_00_0, // Suspended high, over-current | clear PORT_SUSPEND
    0x1_0_1_00_00_0, // Suspended high, over-current | clear PORT_POWER
    0x6_2_1_00_01_0, // Suspended high, over-current | clear C_PORT_CONNECTION
    0x6_2_1_00_02_0, // Suspended high, over-current | clear C_PORT_ENABLE
    0x6_2_1_00_04_0, // Suspended high, over-current | clear C_PORT_SUSPEND
    0x6_2_1_00_08_0, // Suspended high, over-current | clear C_PORT_OVER_CURRENT
    0x6_2_1_00_10_0, // Suspended high, over-current | clear C_PORT_RESET
    0x0_0_0_00_00_0, // Suspended high, over-current | SetConfiguration 0
    0x1_0_1_00_00_0, // Suspended high, over-current | SetConfiguration 1
    0x0_0_0_00_1f_0, // Suspended high, over-current | bus reset
    0x7_0_1_00_00_8, // Resuming low, timer runs, over-current | attach low
    0x7_0_1_00_00_8, // Resuming low, timer runs, over-current | attach full
    0x7_0_1_00_00_8, // Resuming low, timer runs, over-current | detach
    0x7_0_1_00_00_8, // Resuming low, timer runs, over-current | chirp
    0x7_0_1_00_00_8, // Resuming low, timer runs, over-current | wake
    0x7_0_1_00_00_8, // Resuming low, timer runs, over-current | port error
    0x7_0_1_00_00_0, // Resuming low, timer runs, over-current | over-current on
    0x7_0_0_08_00_0, // Resuming low, timer runs, over-current | over-current off
    0x7_0_1_00_00_0, // Resuming low, timer runs, over-current | tick
    0x7_0_1_00_00_0, // Resuming low, timer runs, over-current | set PORT_SUSPEND
    0x4_0_1_00_00_0, // Resuming low, timer runs, over-current | set PORT_RESET
    0x7_0_1_00_00_0, // Resuming low, timer runs, over-current | set PORT_POWER
    0x3_0_1_00_00_0, // Resuming low, timer runs, over-current | clear PORT_ENABLE
    0x7_0_1_00_00_0, // Resuming low, timer runs, over-current | clear PORT_SUSPEND
    0x1_0_1_00_00_0, // Resuming low, timer runs, over-current | clear PORT_POWER
    0x7_0_1_00_01_0, // Resuming low, timer runs, over-current | clear C_PORT_CONNECTION
    0x7_0_1_00_02_0, // Resuming low, timer runs, over-current | clear C_PORT_ENABLE
    0x7_0_1_00_04_0, // Resuming low, timer runs, over-current | clear C_PORT_SUSPEND
    0x7_0_1_00_08_0, // Resuming low, timer runs, over-current | clear C_PORT_OVER_CURRENT
    0x7_0_1_00_10_0, // Resuming low, timer runs, over-current | clear C_PORT_RESET
    0x0_0_0_00_00_0, // Resuming low, timer runs, over-current | SetConfiguration 0
    0x1_0_1_00_00_0, // Resuming low, timer runs, over-current | SetConfiguration 1
    0x0_0_0_00_1f_0, // Resuming low, timer runs, over-current | bus reset
    0x7_0_1_00_00_8, // Resuming low, timer ends, over-current | attach low
    0x7_0_1_00_00_8, // Resuming low, timer ends, over-current | attach full
    0x7_0_1_00_00_8, // Resuming low, timer ends, over-current | detach
    0x7_0_1_00_00_8, // Resuming low, timer ends, over-current | chirp
    0x7_0_1_00_00_8, // Resuming low, timer ends, over-current | wake
    0x7_0_1_00_00_8, // Resuming low, timer ends, over-current | port error
    0x7_0_1_00_00_0, // Resuming low, timer ends, over-current | over-current on
    0x7_0_0_08_00_0, // Resuming low, timer ends, over-current | over-current off
    0x5_0_1_04_00_0, // Resuming low, timer ends, over-current | tick
    0x7_0_1_00_00_0, // Resuming low, timer ends, over-current | set PORT_SUSPEND
    0x4_0_1_00_00_0, // Resuming low, timer ends, over-current | set PORT_RESET
    0x7_0_1_00_00_0, // Resuming low, timer ends, over-current | set PORT_POWER
    0x3_0_1_00_00_0, // Resuming low, timer ends, over-current | clear PORT_ENABLE
    0x7_0_1_00_00_0, // Resuming low, timer ends, over-current | clear PORT_SUSPEND
    0x1_0_1_00_00_0, // Resuming low, timer ends, over-current | clear PORT_POWER
    0x7_0_1_00_01_0, // Resuming low, timer ends, over-current | clear C_PORT_CONNECTION
    0x7_0_1_00_02_0, // Resuming low, timer ends, over-current | clear C_PORT_ENABLE
    0x7_0_1_00_04_0, // Resuming low, timer ends, over-current | clear C_PORT_SUSPEND
    0x7_0_1_00_08_0, // Resuming low, timer ends, over-current | clear C_PORT_OVER_CURRENT
    0x7_0_1_00_10_0, // Resuming low, timer ends, over-current | clear C_PORT_RESET
    0x0_0_0_00_00_0, // Resuming low, timer ends, over-current | SetConfiguration 0
    0x1_0_1_00_00_0, // Resuming low, timer ends, over-current | SetConfiguration 1
    0x0_0_0_00_1f_0, // Resuming low, timer ends, over-current | bus reset
    0x7_1_1_00_00_8, // Resuming full, timer runs, over-current | attach low
    0x7_1_1_00_00_8, // Resuming full, timer runs, over-current | attach full
    0x7_1_1_00_00_8, // Resuming full, timer runs, over-current | detach
    0x7_1_1_00_00_8, // Resuming full, timer runs, over-current | chirp
    0x7_1_1_00_00_8, // Resuming full, timer runs, over-current | wake
    0x7_1_1_00_00_8, // Resuming full, timer runs, over-current | port error
    0x7_1_1_00_00_0, // Resuming full, timer runs, over-current | over-current on
    0x7_1_0_08_00_0, // Resuming full, timer runs, over-current | over-current off
    0x7_1_1_00_00_0, // Resuming full, timer runs, over-current | tick
    0x7_1_1_00_00_0, // Resuming full, timer runs, over-current | set PORT_SUSPEND
    0x4_1_1_00_00_0, // Resuming full, timer runs, over-current | set PORT_RESET
    0x7_1_1_00_00_0, // Resuming full, timer runs, over-current | set PORT_POWER
    0x3_1_1_00_00_0, // Resuming full, timer runs, over-current | clear PORT_ENABLE
    0x7_1_1_00_00_0, // Resuming full, timer runs, over-current | clear PORT_SUSPEND
    0x1_0_1_00_00_0, // Resuming full, timer runs, over-current | clear PORT_POWER
    0x7_1_1_00_01_0, // Resuming full, timer runs, over-current | clear C_PORT_CONNECTION
    0x7_1_1_00_02_0, // Resuming full, timer runs, over-current | clear C_PORT_ENABLE
    0x7_1_1_00_04_0, // Resuming full, timer runs, over-current | clear C_PORT_SUSPEND
    0x7_1_1_00_08_0, // Resuming full, timer runs, over-current | clear C_PORT_OVER_CURRENT
    0x7_1_1_00_10_0, // Resuming full, timer runs, over-current | clear C_PORT_RESET
    0x0_0_0_00_00_0, // Resuming full, timer runs, over-current | SetConfiguration 0
    0x1_0_1_00_00_0, // Resuming full, timer runs, over-current | SetConfiguration 1
    0x0_0_0_00_1f_0, // Resuming full, timer runs, over-current | bus reset
    0x7_1_1_00_00_8, // Resuming full, timer ends, over-current | attach low
    0x7_1_1_00_00_8, // Resuming full, timer ends, over-current | attach full
    0x7_1_1_00_00_8, // Resuming full, timer ends, over-current | detach
    0x7_1_1_00_00_8, // Resuming full, timer ends, over-current | chirp
    0x7_1_1_00_00_8, // Resuming full, timer ends, over-current | wake
    0x7_1_1_00_00_8, // Resuming full, timer ends, over-current | port error
    0x7_1_1_00_00_0, // Resuming full, timer ends, over-current | over-current on
    0x7_1_0_08_00_0, // Resuming full, timer ends, over-current | over-current off
    0x5_1_1_04_00_0, // Resuming full, timer ends, over-current | tick
    0x7_1_1_00_00_0, // Resuming full, timer ends, over-current | set PORT_SUSPEND
    0x4_1_1_00_00_0, // Resuming full, timer ends, over-current | set PORT_RESET
    0x7_1_1_00_00_0, // Resuming full, timer ends, over-current | set PORT_POWER
    0x3_1_1_00_00_0, // Resuming full, timer ends, over-current | clear PORT_ENABLE
    0x7_1_1_00_00_0, // Resuming full, timer ends, over-current | clear PORT_SUSPEND
    0x1_0_1_00_00_0, // Resuming full, timer ends, over-current | clear PORT_POWER
    0x7_1_1_00_01_0, // Resuming full, timer ends, over-current | clear C_PORT_CONNECTION
    0x7_1_1_00_02_0, // Resuming full, timer ends, over-current | clear C_PORT_ENABLE
    0x7_1_1_00_04_0, // Resuming full, timer ends, over-current | clear C_PORT_SUSPEND
    0x7_1_1_00_08_0, // Resuming full, timer ends, over-current | clear C_PORT_OVER_CURRENT
    0x7_1_1_00_10_0, // Resuming full, timer ends, over-current | clear C_PORT_RESET
    0x0_0_0_00_00_0, // Resuming full, timer ends, over-current | SetConfiguration 0
    0x1_0_1_00_00_0, // Resuming full, timer ends, over-current | SetConfiguration 1
    0x0_0_0_00_1f_0, // Resuming full, timer ends, over-current | bus reset
    0x7_2_1_00_00_8, // Resuming high, timer runs, over-current | attach low
    0x7_2_1_00_00_8, // Resuming high, timer runs, over-current | attach full
    0x7_2_1_00_00_8, // Resuming high, timer runs, over-current | detach
    0x7_2_1_00_00_8, // Resuming high, timer runs, over-current | chirp
    0x7_2_1_00_00_8, // Resuming high, timer runs, over-current | wake
    0x7_2_1_00_00_8, // Resuming high, timer runs, over-current | port error
    0x7_2_1_00_00_0, // Resuming high, timer runs, over-current | over-current on
    0x7_2_0_08_00_0, // Resuming high, timer runs, over-current | over-current off
    0x7_2_1_00_00_0, // Resuming high, timer runs, over-current | tick
    0x7_2_1_00_00_0, // Resuming high, timer runs, over-current | set PORT_SUSPEND
    0x4_1_1_00_00_0, // Resuming high, timer runs, over-current | set PORT_RESET
    0x7_2_1_00_00_0, // Resuming high, timer runs, over-current | set PORT_POWER
    0x3_2_1_00_00_0, // Resuming high, timer runs, over-current | clear PORT_ENABLE
    0x7_2_1_00_00_0, // Resuming high, timer runs, over-current | clear PORT_SUSPEND
    0x1_0_1_00_00_0, // Resuming high, timer runs, over-current | clear PORT_POWER
    0x7_2_1_00_01_0, // Resuming high, timer runs, over-current | clear C_PORT_CONNECTION
    0x7_2_1_00_02_0, // Resuming high, timer runs, over-current | clear C_PORT_ENABLE
    0x7_2_1_00_04_0, // Resuming high, timer runs, over-current | clear C_PORT_SUSPEND
    0x7_2_1_00_08_0, // Resuming high, timer runs, over-current | clear C_PORT_OVER_CURRENT
    0x7_2_1_00_10_0, // Resuming high, timer runs, over-current | clear C_PORT_RESET
    0x0_0_0_00_00_0, // Resuming high, timer runs, over-current | SetConfiguration 0
    0x1_0_1_00_00_0, // Resuming high, timer runs, over-current | SetConfiguration 1
    0x0_0_0_00_1f_0, // Resuming high, timer runs, over-current | bus reset
    0x7_2_1_00_00_8, // Resuming high, timer ends, over-current | attach low
    0x7_2_1_00_00_8, // Resuming high, timer ends, over-current | attach full
    0x7_2_1_00_00_8, // Resuming high, timer ends, over-current | detach
    0x7_2_1_00_00_8, // Resuming high, timer ends, over-current | chirp
    0x7_2_1_00_00_8, // Resuming high, timer ends, over-current | wake
    0x7_2_1_00_00_8, // Resuming high, timer ends, over-current | port error
    0x7_2_1_00_00_0, // Resuming high, timer ends, over-current | over-current on
    0x7_2_0_08_00_0, // Resuming high, timer ends, over-current | over-current off
    0x5_2_1_04_00_0, // Resuming high, timer ends, over-current | tick
    0x7_2_1_00_00_0, // Resuming high, timer ends, over-current | set PORT_SUSPEND
    0x4_1_1_00_00_0, // Resuming high, timer ends, over-current | set PORT_RESET
    0x7_2_1_00_00_0, // Resuming high, timer ends, over-current | set PORT_POWER
    0x3_2_1_00_00_0, // Resuming high, timer ends, over-current | clear PORT_ENABLE
    0x7_2_1_00_00_0, // Resuming high, timer ends, over-current | clear PORT_SUSPEND
    0x1_0_1_00_00_0, // Resuming high, timer ends, over-current | clear PORT_POWER
    0x7_2_1_00_01_0, // Resuming high, timer ends, over-current | clear C_PORT_CONNECTION
    0x7_2_1_00_02_0, // Resuming high, timer ends, over-current | clear C_PORT_ENABLE
    0x7_2_1_00_04_0, // Resuming high, timer ends, over-current | clear C_PORT_SUSPEND
    0x7_2_1_00_08_0, // Resuming high, timer ends, over-current | clear C_PORT_OVER_CURRENT
    0x7_2_1_00_10_0, // Resuming high, timer ends, over-current | clear C_PORT_RESET
    0x0_0_0_00_00_0, // Resuming high, timer ends, over-current | SetConfiguration 0
    0x1_0_1_00_00_0, // Resuming high, timer ends, over-current | SetConfiguration 1
    0x0_0_0_00_1f_0, // Resuming high, timer ends, over-current | bus reset
];
